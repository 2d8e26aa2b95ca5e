//! From a deed of a server's machine to an operation on the account book.

ghost use Rattle.std.specs.Prelude.{◌≡◌};
ghost use Rattle.charge_session.specs.Deeds.{op_of};

use crate::want::Want;
use acct_totals::Op;
use base_codes::DeedCode;
use tab_law::Deed;

/// The operation that a deed asks of the account book, on the account and the session of what its event wanted:
/// argument 0 is the amount, argument 1 the group, 0 for a request without groups (RFC 8506 section 8.16); none for a
/// deed that is not the book's. Takes no memory.
pub fn op_of(deed: &Deed, want: &Want) -> Option<Op>
    ensures { result ≡ op_of want.now deed.now }
{
    deed.known();
    let (account, session) = (want.account, want.session);
    let (number, group) = (deed.a[0], deed.a[1]);
    Some(match DeedCode::coded(deed.code)? {
        DeedCode::Reserve => Op::Reserve {
            account,
            session,
            group,
            amount: number,
        },
        DeedCode::Debit => Op::Debit {
            account,
            session,
            group,
            used: number,
        },
        DeedCode::Release => Op::Release { account, session },
        DeedCode::Charge => Op::Charge {
            account,
            amount: number,
        },
        DeedCode::Refund => Op::Refund {
            account,
            amount: number,
        },
        _ => return None,
    })
}
