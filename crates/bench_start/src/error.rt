//! Why a bench is not opened.
ghost use Rattle.std.specs.Prelude.{Some};
ghost use Rattle.bench_open.specs.Faults.{IsErrorFor, error_of};

use base_list::Octets;
use bench_open::OpeningFault;
use bench_spec::OpeningError;
use std::alloc::{AllocError, Global};

/// The error that tells a fault; want of memory where the name that it tells can't be copied.
pub fn opening_error(alloc: Global, fault: OpeningFault<'_>) -> OpeningError
    ensures { IsErrorFor (Some (error_of fault.entry)) result }
{
    match fault {
        OpeningFault::Limits => OpeningError::Limits,
        OpeningFault::Names => OpeningError::Names,
        OpeningFault::Laws => OpeningError::Laws,
        OpeningFault::Unbound(name) => match Octets::from_slice(alloc, name) {
            Ok(name) => OpeningError::Unbound(name),
            Err(AllocError) => OpeningError::NoMemory,
        },
        OpeningFault::Account => OpeningError::Account,
    }
}
