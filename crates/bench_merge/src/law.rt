//! The law of the one order, over every list of parts.
ghost use Rattle.bench_merge.specs.Order.{OrderOrClash};

/// Parts that have an order have nothing that keeps them from it.
pub fn order_or_clash()
    ensures { OrderOrClash }
{}
