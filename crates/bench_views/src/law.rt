//! What holds of each legal log.
ghost use Rattle.bench_views.specs.Laws.{LegalIsInOrder};

/// In a legal log items are carried from each source, and handled in each shard, in their order.
pub fn legal_is_in_order()
    ensures { LegalIsInOrder }
{}
