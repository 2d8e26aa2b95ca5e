//! Places of one service of several (Multiple-Services-Credit-Control, RFC 8506 section 8.16), in facts and in
//! registers alike: slot `k` of 1 to 4 begins at `FIRST + (k - 1) * SIZE`, and the other numbers are counted from
//! there.

ghost use Rattle.std.specs.Prelude.{◌≡◌};
ghost use Rattle.base_codes.specs.Places.{named, slot_begins, slot_places};

/// Where slot 1 begins.
pub const FIRST: usize = 17;

/// How many places a slot has.
pub const SIZE: usize = 8;

/// The most slots.
pub const MAX_SLOTS: usize = 4;

/// Rating-Group + 2, 1 where the service has none, 0 for an empty slot.
pub const GROUP: usize = 0;

/// Used units.
pub const USED: usize = 1;

/// Requested units.
pub const WANT: usize = 2;

/// Their unit.
pub const UNIT: usize = 3;

/// The Result-Code of the service.
pub const RESULT_CODE: usize = 4;

/// Granted units.
pub const GRANTED: usize = 5;

/// 1 where they are the last.
pub const FINAL: usize = 6;

/// The used units that can be paid.
pub const PAY: usize = 7;

/// Each place of a slot, by number and name.
pub fn places() -> [(usize, &'static str); 8]
    ensures { named result ≡ slot_places }
{
    [
        (GROUP, "Rating-Group + 2"),
        (USED, "used units"),
        (WANT, "requested units"),
        (UNIT, "unit"),
        (RESULT_CODE, "Result-Code"),
        (GRANTED, "granted units"),
        (FINAL, "final"),
        (PAY, "units that can be paid"),
    ]
}

/// Where each slot begins.
pub fn begins() -> [usize; MAX_SLOTS]
    ensures { result ≡ slot_begins }
{
    [FIRST, FIRST + SIZE, FIRST + 2 * SIZE, FIRST + 3 * SIZE]
}
