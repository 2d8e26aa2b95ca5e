//! Amounts of units in groups (RFC 8506 sections 8.17 to 8.22).

ghost use Rattle.std.specs.Prelude.{◌≡◌, map, Some, None};
ghost use Rattle.std.specs.Option.{option_map};
ghost use Rattle.dia_avp.specs.View.{seen};
ghost use Rattle.dia_avp.specs.Reading.{avps_in};
ghost use Rattle.charge_facts.specs.Amounts.{amount, amount_of, first_amount, units_of, told, total, groups_of};
ghost use Rattle.charge_facts.specs.Amounts.{first_group};

use base_codes::avp_code;
use dia_avp::{Avp, AvpList, AvpView, first_avp, first_of, is_coded, number_32, number_64};
use dia_command::TypedAvp;

/// So many of a unit: 1 seconds, 2 octets, 3 service specific units, 0 none.
#[derive(Clone, Copy)]
pub(crate) struct Amount {
    pub unit: u64,
    pub units: u64,
}

impl Amount {
    /// So many of a unit.
    pub(crate) fn new(unit: u64, units: u64) -> Amount
        ensures { result ≡ amount unit units }
    {
        Amount { unit, units }
    }
}

/// The amount that an AVP tells.
fn amount_of(avp: &AvpView<'_>) -> Option<Amount>
    ensures { result ≡ amount_of (seen avp.now) }
{
    if is_coded(avp, avp_code::CC_TIME) {
        let seconds = number_32(avp)?;
        return Some(Amount::new(1, u64::from(seconds)));
    }
    if is_coded(avp, avp_code::CC_TOTAL_OCTETS) {
        let octets = number_64(avp)?;
        return Some(Amount::new(2, octets));
    }
    if is_coded(avp, avp_code::CC_SERVICE_SPECIFIC_UNITS) {
        let units = number_64(avp)?;
        return Some(Amount::new(3, units));
    }
    None
}

/// The first amount among AVPs.
fn amount_among(avps: &[Avp]) -> Option<Amount>
    ensures { result ≡ first_amount avps.now }
{
    for avp in avps {
        let amount = amount_of(&avp.view());
        if amount.is_some() {
            return amount;
        }
    }
    None
}

/// The first amount among the AVPs that octets are.
fn amount_in(octets: &[u8]) -> Option<Amount>
    ensures { result ≡ first_amount (avps_in octets.now).0 }
{
    let mut rest = octets;
    while let Ok((avp, after)) = first_avp(rest) {
        let amount = amount_of(&avp);
        if amount.is_some() {
            return amount;
        }
        rest = after;
    }
    None
}

/// What a group of a message tells that may be absent; `default` where it is there without an amount.
pub(crate) fn told(group: &Option<TypedAvp<AvpList>>, default: Amount) -> Amount
    ensures { result ≡ told default (option_map (λ g. g.value) group.now) }
{
    match group {
        None => Amount::new(0, 0),
        Some(group) => match amount_among(group.value.as_slice()) {
            Some(amount) => amount,
            None => default,
        },
    }
}

/// What the first group of a code in a service tells.
pub(crate) fn told_by(service: &AvpList, code: u32, default: Amount) -> Amount
    ensures { result ≡ told default (first_group code service.now) }
{
    match first_of(service.as_slice(), code) {
        None => Amount::new(0, 0),
        Some(group) => match amount_in(group.octets) {
            Some(amount) => amount,
            None => default,
        },
    }
}

fn units_of(amount: Option<Amount>) -> u64
    ensures { result ≡ units_of amount }
{
    match amount {
        Some(amount) => amount.units,
        None => 0,
    }
}

/// The units of all groups of a message together, as many as 64 bits hold.
pub(crate) fn total(groups: &[TypedAvp<AvpList>]) -> u64
    ensures { result ≡ total (map (λ g. g.value) groups.now) }
{
    let mut total: u64 = 0;
    for group in groups {
        let units = units_of(amount_among(group.value.as_slice()));
        total = total.saturating_add(units);
    }
    total
}

/// The units of all groups of a code in a service together, as many as 64 bits hold.
pub(crate) fn total_by(service: &AvpList, code: u32) -> u64
    ensures { result ≡ total (groups_of code service.now) }
{
    let mut total: u64 = 0;
    for avp in service.as_slice() {
        let view = avp.view();
        if is_coded(&view, code) {
            let units = units_of(amount_in(view.octets));
            total = total.saturating_add(units);
        }
    }
    total
}
