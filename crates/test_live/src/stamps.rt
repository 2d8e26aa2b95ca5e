//! Stamps of parts in one order.
use bench_item::Series;
use bench_merge::{Placed, merge};
use std::alloc::{AllocError, Global};

/// Two parts and the order of their stamps, each by its part; none where there is no order.
type Row = (&'static [u64], &'static [u64], Option<&'static [usize]>);

const ROWS: [Row; 8] = [
    (&[], &[], Some(&[])),
    (&[5], &[], Some(&[0])),
    (&[1, 4], &[2, 3, 9], Some(&[0, 1, 1, 0, 1])),
    (&[7, 8], &[1], Some(&[1, 0, 0])),
    (&[0, u64::MAX], &[1], Some(&[0, 1, 0])),
    (&[3], &[3], None),
    (&[2, 2], &[], None),
    (&[1], &[5, 4], None),
];

/// A part with these stamps.
fn part(alloc: Global, stamps: &[u64]) -> Result<Series<u64>, AllocError> {
    let mut own = Vec::new(alloc);
    own.extend_from_slice(stamps)?;
    Ok(Series::new(own))
}

/// Whether the order has these parts, one after the other.
fn is_of(order: &[Placed], parts: &[usize]) -> bool {
    if order.len() != parts.len() {
        return false;
    }
    for (placed, part) in order.iter().zip(parts.iter()) {
        if placed.part != *part {
            return false;
        }
    }
    true
}

/// Whether these two parts come to that.
fn comes_to(alloc: Global, row: &Row) -> Result<bool, AllocError> {
    let (one, other, wanted) = *row;
    let parts = [part(alloc, one)?, part(alloc, other)?];
    Ok(match (merge(alloc, &parts)?, wanted) {
        (None, None) => true,
        (Some(order), Some(wanted)) => is_of(&order, wanted),
        (None, Some(_)) | (Some(_), None) => false,
    })
}

#[test]
fn stamps_come_in_one_order(rt: HostRuntime) -> Result<(), AllocError> {
    for row in &ROWS {
        assert!(rt; comes_to(rt.alloc(), row)?);
    }
    Ok(())
}
