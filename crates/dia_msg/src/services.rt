//! The instances of Multiple-Services-Credit-Control of a message (RFC 8506 section 5.1.2), without memory.

ghost use Rattle.std.specs.Prelude.{◌≡◌, ◌||◌, filter, nat_lt, length, if◌then◌else◌};
ghost use Rattle.std.specs.List.{list_any};
ghost use Rattle.dia_avp.specs.Reading.{avps_in};
ghost use Rattle.dia_avp.specs.Look.{is_coded, first_number};
ghost use Rattle.dia_msg.specs.Faults.{is_same, has_twice, has_services};
ghost use Rattle.dia_msg.specs.Sorting.{seen_all};
ghost use Rattle.dia_msg.specs.Walk.{groups_in};

use base_codes::avp_code;
use base_list::FixedList;
use dia_avp::{AvpView, first_number_in, is_coded};
use dia_command::CommandKind;

/// As many instances as a message may have.
const MAX_SERVICES: usize = 4;

// The Rating-Group of an instance.
fn group_of(avp: &AvpView<'_>) -> Option<u32>
    ensures { result ≡ first_number 432 (avps_in avp.now.octets.now).0 }
{
    first_number_in(avp.octets, avp_code::RATING_GROUP)
}

fn is_same(a: Option<u32>, b: Option<u32>) -> bool
    ensures { result ≡ is_same a b }
{
    match (a, b) {
        (None, None) => true,
        (Some(a), Some(b)) => a == b,
        _ => false,
    }
}

fn has(groups: &[Option<u32>], group: Option<u32>) -> bool
    ensures { result ≡ list_any (λ g. is_same g group) groups.now }
{
    // A loop is proved sooner than `any` with its closure.
    for other in groups {
        if is_same(*other, group) {
            return true;
        }
    }
    false
}

/// Whether a kind of command may have several services.
pub(crate) fn has_services(kind: CommandKind) -> bool
    ensures { result ≡ has_services kind }
{
    matches!(
        kind,
        CommandKind::CreditControlRequest | CommandKind::CreditControlAnswer
    )
}

/// Whether there are too many instances, none may stand in an EVENT request, or two of one group.
pub(crate) fn are_faulty(event: bool, avps: &[AvpView<'_>]) -> bool
    ensures { let groups = groups_in (filter (is_coded 456) (seen_all avps.now)) in
        result ≡ (nat_lt (if event then 0 else 4) (length groups) || has_twice groups) }
{
    let most = if event { 0 } else { MAX_SERVICES };
    let mut groups: FixedList<Option<u32>, MAX_SERVICES> = FixedList::new();
    for avp in avps {
        if is_coded(avp, avp_code::MULTIPLE_SERVICES_CREDIT_CONTROL) {
            let group = group_of(avp);
            if groups.len() >= most || has(groups.as_slice(), group) {
                return true;
            }
            groups.push(group);
        }
    }
    false
}
