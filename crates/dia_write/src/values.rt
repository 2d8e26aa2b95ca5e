//! What stands at one place of a command, as values that lie in it,
//! and how the AVPs that they are are measured and written.

ghost use Rattle.std.specs.Prelude.{◌≡◌, ◌+◌, ◌<◌, ◌≤◌, ◌^◌, ◌++◌, ℕ, List, length};
ghost use Rattle.std.specs.Option.{SomeIff};
ghost use Rattle.byteorder.specs.Endian.{big_bytes};
ghost use Rattle.dia_avp.specs.View.{seen};
ghost use Rattle.dia_avp.specs.Encoding.{length_of, encoded, encoding};
ghost use Rattle.dia_command.specs.Value.{type_number, action_number};
ghost use Rattle.dia_write.specs.Values.{avp_with};
ghost use Rattle.dia_write.specs.Filling.{IsFilled};

use crate::fill::{put_avp, put_group};
use base_codes::MAX_LENGTH;
use byteorder::{BigEndian, ByteOrder};
use dia_avp::{AvpList, AvpView, Octets};
use dia_command::{RequestType, RequestedAction, Text, TypedAvp};

/// What stands at one place of a command's format: values of one type, none or more, in order. They lie in the command.
#[derive(Clone, Copy)]
pub(crate) enum Values<'a> {
    Octets(&'a [TypedAvp<Octets>]),
    Texts(&'a [TypedAvp<Text>]),
    Numbers(&'a [TypedAvp<u32>]),
    Types(&'a [TypedAvp<RequestType>]),
    Actions(&'a [TypedAvp<RequestedAction>]),
    Groups(&'a [TypedAvp<AvpList>]),
}

/// The sum of two lengths, where 24 bits hold it.
pub(crate) fn total(len: usize, more: usize) -> Option<usize>
    requires { len < 2 ^ 24 }
    ensures { SomeIff result (len + more < 2 ^ 24) (len + more) }
{
    if more > MAX_LENGTH - len {
        None
    } else {
        Some(len + more)
    }
}

fn view_of(code: u32, mandatory: bool, protected: bool, octets: &[u8]) -> AvpView<'_>
    ensures { seen result ≡ avp_with code mandatory protected octets.now }
{
    AvpView {
        code,
        vendor: None,
        mandatory,
        protected,
        octets,
    }
}

// Puts the AVP of a code and flags that has a number as its data at a place, and says where it ends.
#[inline(always)]
fn put_number(
    code: u32,
    mandatory: bool,
    protected: bool,
    number: u32,
    room: &mut [u8],
    at: usize,
) -> usize
    requires short { length_of (avp_with code mandatory protected (big_bytes 4 number)) < 2 ^ 24 }
    requires fits { at + length (encoded (avp_with code mandatory protected (big_bytes 4 number))) ≤ length room.old }
    ensures filled { (front : List ℕ) → IsFilled room.old front at
        → IsFilled room.new (front ++ encoded (avp_with code mandatory protected (big_bytes 4 number))) result }
    ensures end { result ≡ at + length (encoded (avp_with code mandatory protected (big_bytes 4 number))) }
    ensures len { length room.new ≡ length room.old }
{
    let mut octets = [0; 4];
    BigEndian::write_u32(&mut octets, number);
    put_avp(&view_of(code, mandatory, protected, &octets), room, at)
}

/// A value that the data of an AVP is.
pub(crate) trait Content {
    // The octets of the data.
    ghost data_of: { Self → List ℕ };

    /// How many octets the data has, where 24 bits hold the number.
    fn data_len(&self) -> Option<usize>
        ensures { let len = length (data_of self.now) in SomeIff result (len < 2 ^ 24) len };

    /// Puts the AVP without vendor of a code and flags that has this data at a place, and says where it ends.
    fn put(&self, code: u32, mandatory: bool, protected: bool, room: &mut [u8], at: usize) -> usize
        requires short { length_of (avp_with code mandatory protected (data_of self.now)) < 2 ^ 24 }
        requires fits { at + length (encoded (avp_with code mandatory protected (data_of self.now))) ≤ length room.old }
        ensures filled { (front : List ℕ) → IsFilled room.old front at
            → IsFilled room.new (front ++ encoded (avp_with code mandatory protected (data_of self.now))) result }
        ensures end { result ≡ at + length (encoded (avp_with code mandatory protected (data_of self.now))) }
        ensures len { length room.new ≡ length room.old };
}

impl Content for Octets {
    ghost data_of = { λ octets. octets };

    fn data_len(&self) -> Option<usize> {
        total(0, self.len())
    }

    fn put(
        &self,
        code: u32,
        mandatory: bool,
        protected: bool,
        room: &mut [u8],
        at: usize,
    ) -> usize {
        put_avp(
            &view_of(code, mandatory, protected, self.as_slice()),
            room,
            at,
        )
    }
}

impl Content for Text {
    ghost data_of = { λ octets. octets };

    fn data_len(&self) -> Option<usize> {
        total(0, self.as_bytes().len())
    }

    fn put(
        &self,
        code: u32,
        mandatory: bool,
        protected: bool,
        room: &mut [u8],
        at: usize,
    ) -> usize {
        put_avp(
            &view_of(code, mandatory, protected, self.as_bytes()),
            room,
            at,
        )
    }
}

impl Content for u32 {
    ghost data_of = { big_bytes 4 };

    fn data_len(&self) -> Option<usize> {
        Some(4)
    }

    fn put(
        &self,
        code: u32,
        mandatory: bool,
        protected: bool,
        room: &mut [u8],
        at: usize,
    ) -> usize {
        put_number(code, mandatory, protected, *self, room, at)
    }
}

impl Content for RequestType {
    ghost data_of = { λ t. big_bytes 4 (type_number t) };

    fn data_len(&self) -> Option<usize> {
        Some(4)
    }

    fn put(
        &self,
        code: u32,
        mandatory: bool,
        protected: bool,
        room: &mut [u8],
        at: usize,
    ) -> usize {
        put_number(code, mandatory, protected, self.number(), room, at)
    }
}

impl Content for RequestedAction {
    ghost data_of = { λ a. big_bytes 4 (action_number a) };

    fn data_len(&self) -> Option<usize> {
        Some(4)
    }

    fn put(
        &self,
        code: u32,
        mandatory: bool,
        protected: bool,
        room: &mut [u8],
        at: usize,
    ) -> usize {
        put_number(code, mandatory, protected, self.number(), room, at)
    }
}

impl Content for AvpList {
    ghost data_of = { encoding };

    fn data_len(&self) -> Option<usize> {
        total(0, self.encoded_len()?)
    }

    fn put(
        &self,
        code: u32,
        mandatory: bool,
        protected: bool,
        room: &mut [u8],
        at: usize,
    ) -> usize {
        put_group(code, mandatory, protected, self, room, at)
    }
}
