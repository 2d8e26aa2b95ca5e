//! The account that a request names (RFC 8506 sections 8.46 to 8.48).

ghost use Rattle.std.specs.Prelude.{◌≡◌};
ghost use Rattle.charge_facts.specs.Accounts.{begins_with_0, account_number, is_e164, account_in, account_of};

use base_codes::avp_code;
use base_text::number_of;
use dia_avp::{AvpList, first_number_of, first_of};
use dia_command::TypedAvp;

/// As many digits as the number of an account has.
const MAX_DIGITS: usize = 15;

/// END_USER_E164 (RFC 8506 section 8.47).
const E164: u32 = 0;

fn begins_with_0(digits: &[u8]) -> bool
    ensures { result ≡ begins_with_0 digits.now }
{
    match digits.first() {
        Some(digit) => *digit == b'0',
        None => false,
    }
}

fn account_number(digits: &[u8]) -> u64
    ensures { result ≡ account_number digits.now }
{
    if digits.len() > MAX_DIGITS || begins_with_0(digits) {
        return 0;
    }
    number_of(digits).unwrap_or(0)
}

fn is_e164(group: &AvpList) -> bool
    ensures { result ≡ is_e164 group.now }
{
    match first_number_of(group.as_slice(), avp_code::SUBSCRIPTION_ID_TYPE) {
        Some(number) => number == E164,
        None => false,
    }
}

fn account_in(group: &AvpList) -> u64
    ensures { result ≡ account_in group.now }
{
    match first_of(group.as_slice(), avp_code::SUBSCRIPTION_ID_DATA) {
        Some(data) => account_number(data.octets),
        None => 0,
    }
}

/// The account of a request with these Subscription-Ids, 0 for none.
pub(crate) fn account_of(ids: &[TypedAvp<AvpList>]) -> u64
    ensures { result ≡ account_of ids.now }
{
    for id in ids {
        if is_e164(&id.value) {
            return account_in(&id.value);
        }
    }
    0
}
