//! What stands on the accounts of a bench.
ghost use Rattle.std.specs.Prelude.{◌≡◌, ◌++◌, OnOk};
ghost use Rattle.bench_show.specs.Accounts.{accounts_text};

use bench_core::Core;
use bench_script::put_totals;
use std::alloc::AllocError;

/// Puts each account that the bench was opened with behind what `out` holds, in that order:
/// `account ID given G reserved R debited D unpaid U`.
pub fn put_accounts(out: &mut Vec<u8>, core: &Core) -> Result<(), AllocError>
    ensures { OnOk result (out.new.items ≡ out.old.items ++ accounts_text core.now) }
{
    for account in core.accounts() {
        put_totals(out, core, &[account.id])?;
    }
    Ok(())
}
