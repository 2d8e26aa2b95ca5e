//! AVPs that this node writes: without vendor, with flag M.

ghost use Rattle.std.specs.Prelude.{◌≡◌, ◌≤◌, ◌∷◌, ◌++◌, [], None, length, IfOk, OnOk};
ghost use Rattle.byteorder.specs.Endian.{big_bytes};
ghost use Rattle.dia_avp.specs.Encoding.{encoding};
ghost use Rattle.charge_message.specs.Avps.{made_avp, number_avp, amount_avp, units_field};
ghost use Rattle.charge_message.specs.Avps.{units_avps, termination, subscription};

use base_codes::avp_code;
use byteorder::{BigEndian, ByteOrder};
use deed_message::{lowest, made};
use dia_avp::{Avp, AvpList, Octets, put_avp};
use dia_command::TypedAvp;
use itoa::Buffer;
use std::alloc::{AllocError, Global};

/// END_USER_E164 (RFC 8506 section 8.47).
const E164: u64 = 0;

/// TERMINATE (RFC 8506 section 8.35).
const TERMINATE: u64 = 0;

fn made_avp(code: u32, octets: Octets) -> Avp
    ensures { result ≡ made_avp code octets }
{
    Avp {
        code,
        vendor: None,
        mandatory: true,
        protected: false,
        octets,
    }
}

/// An AVP with the lowest 32 bits of a number.
#[tactic(auto, unfolding(crate::specs::Avps::number_avp))]
pub(crate) fn number_avp(alloc: Global, code: u32, number: u64) -> Result<Avp, AllocError>
    ensures { IfOk result (λ a. a ≡ number_avp code number) }
{
    let mut octets = [0; 4];
    BigEndian::write_u32(&mut octets, lowest(number));
    let octets = Octets::from_slice(alloc, &octets)?;
    Ok(made_avp(code, octets))
}

fn long_avp(alloc: Global, code: u32, number: u64) -> Result<Avp, AllocError>
    ensures { IfOk result (λ a. a ≡ made_avp code (big_bytes 8 number)) }
{
    let mut octets = [0; 8];
    BigEndian::write_u64(&mut octets, number);
    let octets = Octets::from_slice(alloc, &octets)?;
    Ok(made_avp(code, octets))
}

/// So many of a unit.
#[tactic(auto, unfolding(crate::specs::Avps::amount_avp))]
fn amount_avp(alloc: Global, unit: u64, units: u64) -> Result<Avp, AllocError>
    ensures { IfOk result (λ a. a ≡ amount_avp unit units) }
{
    match unit {
        1 => number_avp(alloc, avp_code::CC_TIME, units),
        3 => long_avp(alloc, avp_code::CC_SERVICE_SPECIFIC_UNITS, units),
        _ => long_avp(alloc, avp_code::CC_TOTAL_OCTETS, units),
    }
}

/// A group of one AVP, as an AVP itself.
fn group_avp(alloc: Global, code: u32, inner: &Avp) -> Result<Avp, AllocError>
    requires vendor { inner.now.vendor ≡ None }
    requires short { length inner.now.octets ≤ 8 }
    ensures { IfOk result (λ a. a ≡ made_avp code (encoding (inner.now ∷ []))) }
{
    let view = inner.view();
    let mut octets = Vec::with_capacity(alloc, view.encoded_len())?;
    put_avp(&view, &mut octets);
    Ok(made_avp(code, Octets::new(octets)))
}

/// The one AVP.
fn list_of(alloc: Global, avp: Avp) -> Result<AvpList, AllocError>
    ensures { IfOk result (λ list. list ≡ avp ∷ []) }
{
    let mut list = AvpList::new(alloc);
    list.push(avp)?;
    Ok(list)
}

/// A group of a message that tells an amount, and none where it is 0.
#[tactic(auto, unfolding(crate::specs::Avps::units_field))]
pub(crate) fn units_field(
    alloc: Global,
    unit: u64,
    units: u64,
) -> Result<Option<TypedAvp<AvpList>>, AllocError>
    ensures { IfOk result (λ field. field ≡ units_field unit units) }
{
    if units == 0 {
        return Ok(None);
    }
    let amount = amount_avp(alloc, unit, units)?;
    Ok(Some(made(list_of(alloc, amount)?)))
}

/// Adds to a service a group that tells an amount, and none where it is 0.
#[tactic(auto, unfolding(crate::specs::Avps::units_avps, crate::specs::Avps::amount_avp, crate::specs::Avps::number_avp))]
pub(crate) fn push_units(
    list: &mut AvpList,
    alloc: Global,
    code: u32,
    unit: u64,
    units: u64,
) -> Result<(), AllocError>
    ensures { OnOk result (list.new ≡ list.old ++ units_avps code unit units) }
{
    if units == 0 {
        return Ok(());
    }
    let amount = amount_avp(alloc, unit, units)?;
    list.push(group_avp(alloc, code, &amount)?)
}

/// What a Final-Unit-Indication holds.
#[tactic(auto, unfolding(crate::specs::Avps::termination))]
pub(crate) fn termination(alloc: Global) -> Result<AvpList, AllocError>
    ensures { IfOk result (λ list. list ≡ termination) }
{
    let action = number_avp(alloc, avp_code::FINAL_UNIT_ACTION, TERMINATE)?;
    list_of(alloc, action)
}

/// A Final-Unit-Indication, as an AVP itself.
#[tactic(auto, unfolding(crate::specs::Avps::termination, crate::specs::Avps::number_avp))]
pub(crate) fn final_avp(alloc: Global) -> Result<Avp, AllocError>
    ensures { IfOk result (λ a. a ≡ made_avp 430 (encoding termination)) }
{
    let action = number_avp(alloc, avp_code::FINAL_UNIT_ACTION, TERMINATE)?;
    group_avp(alloc, avp_code::FINAL_UNIT_INDICATION, &action)
}

/// The Subscription-Id of an account.
#[tactic(auto, unfolding(crate::specs::Avps::subscription))]
pub(crate) fn subscription(alloc: Global, account: u64) -> Result<AvpList, AllocError>
    ensures { IfOk result (λ list. list ≡ subscription account) }
{
    let mut digits = Buffer::new();
    let octets = Octets::from_slice(alloc, digits.format(account).as_bytes())?;
    let data = made_avp(avp_code::SUBSCRIPTION_ID_DATA, octets);
    let kind = number_avp(alloc, avp_code::SUBSCRIPTION_ID_TYPE, E164)?;
    let mut list = list_of(alloc, kind)?;
    list.push(data)?;
    Ok(list)
}
