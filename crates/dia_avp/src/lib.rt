//! Attribute-value pairs of Diameter (RFC 6733 section 4): octets to AVPs, and AVPs to octets.
#![tactic(auto)]

mod address;
mod avp;
mod avp_list;
mod fault;
mod field;
mod first;
mod group;
mod length;
mod look;
mod reading;
mod writing;

pub use address::{Address, address_of};
pub use avp::{Avp, AvpView};
pub use avp_list::AvpList;
pub use base_list::Octets;
pub use fault::{AvpFault, FaultCode, FieldFault, GroupError, ReadError, WriteError};
pub use field::{identity_of, text_of, u32_of, u64_of};
pub use first::{avp_at, first_avp};
pub use group::{AvpsIn, group_of};
pub use look::{
    first_in, first_number_among, first_number_in, first_number_of, first_of, is_coded, number_32,
    number_64,
};
pub use reading::{MAX_AVPS, MAX_DEPTH, read_avps};
pub use writing::{put_avp, put_avps, write_avp, write_avps};
