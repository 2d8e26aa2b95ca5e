//! Why the laws of a role are not registered.

use thiserror::Error;

/// Why a role's laws and callbacks were not registered. The registry is then as it was. Where several hold, the first
/// of them here is told.
#[derive(Clone, Copy, Debug, PartialEq, Eq, Error)]
pub enum RegisterError {
    /// There are more callbacks than laws, or less, or one is stored with another law than the one in its place.
    #[error("the callbacks are not those of the laws, in their order")]
    Laws,
    /// A kind, a guard or an action of that name is there already.
    #[error("a name is there already")]
    Taken,
    /// With these there would be more kinds, guards or actions than a registry may have.
    #[error("there is no room for all of them")]
    Full,
    /// Nothing else is in the way, and memory ran out.
    #[error("out of memory")]
    NoMemory,
}
