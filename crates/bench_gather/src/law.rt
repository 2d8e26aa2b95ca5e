//! The laws of what is gathered, over all parts.
ghost use Rattle.bench_gather.specs.Merging.{GatheredIsMerged, MergedDisagrees, MergedIsGathered};
ghost use Rattle.bench_gather.specs.Ordered.{ByParts};

/// Of parts in an order, each entry in its own, the log filtered by a part is that part: nothing of it is left out,
/// nothing is there twice, and its own order is kept.
pub fn by_parts()
    ensures { ByParts }
{}

/// Where parts were gathered they are merged to a log, as `IsMerged` of `bench_spec` says; it is legal, and the world
/// is its own.
pub fn gathered_is_merged()
    ensures { GatheredIsMerged }
{}

/// Where parts are merged to a log, and parts of desks alone have looks, the world that they were gathered to is that
/// of this log, which is legal: there is no other.
pub fn merged_is_gathered()
    ensures { MergedIsGathered }
{}

/// Where such parts disagree, that log is not legal, and what is told is how many entries its longest front has that
/// is.
pub fn merged_disagrees()
    ensures { MergedDisagrees }
{}
