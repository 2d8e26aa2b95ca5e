//! An attribute-value pair, and how it is seen in octets.
ghost use Rattle.std.specs.Prelude.{◌≡◌, ◌≤◌, length, IfOk, IsOk};
ghost use Rattle.dia_avp.specs.View.{seen};

use base_list::Octets;
use std::alloc::{AllocError, Global};

/// An attribute-value pair (RFC 6733 section 4.1). `vendor` is the Vendor-ID, which stands there only with flag V;
/// 0 is written as none. `mandatory` and `protected` are the flags M and P. `octets` is the data, without padding.
#[derive(Debug)]
pub struct Avp {
    pub code: u32,
    pub vendor: Option<u32>,
    pub mandatory: bool,
    pub protected: bool,
    pub octets: Octets,
}

// A derived `drop` is proved anew in each crate that holds an AVP; this one is a call.
impl Drop for Avp {
    fn drop(self) {
        let Avp {
            code: _,
            vendor: _,
            mandatory: _,
            protected: _,
            octets,
        } = self;
    }
}

/// An AVP whose data lies where it was read. Takes no memory.
#[derive(Clone, Copy, Default)]
pub struct AvpView<'a> {
    pub code: u32,
    pub vendor: Option<u32>,
    pub mandatory: bool,
    pub protected: bool,
    pub octets: &'a [u8],
}

impl Avp {
    /// The AVP, with its data where it is.
    pub fn view(&self) -> AvpView<'_>
        ensures { seen result ≡ self.now }
    {
        AvpView {
            code: self.code,
            vendor: self.vendor,
            mandatory: self.mandatory,
            protected: self.protected,
            octets: self.octets.as_slice(),
        }
    }
}

impl<'a> AvpView<'a> {
    /// The AVP with a copy of its data. Up to 32 octets take no memory.
    pub fn to_avp(&self, alloc: Global) -> Result<Avp, AllocError>
        ensures copy { IfOk result (λ a. a ≡ seen self.now) }
        ensures short { length self.now.octets.now ≤ 32 → IsOk result }
    {
        Ok(Avp {
            code: self.code,
            vendor: self.vendor,
            mandatory: self.mandatory,
            protected: self.protected,
            octets: Octets::from_slice(alloc, self.octets)?,
        })
    }
}
