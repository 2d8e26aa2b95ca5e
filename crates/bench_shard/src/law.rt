//! Laws of a shard that is what a log says, over its contracts.
ghost use Rattle.bench_shard.specs.Stands.{BecomesAsLogged, PostsAsLogged};

/// What becomes of its oldest item is what the log allows, and nothing else; and what that posts is what the log says.
pub fn becomes_as_logged()
    ensures becomes { BecomesAsLogged }
    ensures posts { PostsAsLogged }
{}
