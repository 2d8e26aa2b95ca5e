//! The laws and the tables of a bench, as commands and replies speak of them.
ghost use Rattle.std.specs.Prelude.{◌≡◌};
ghost use Rattle.bench_debug.specs.Tables.{tables_in};
ghost use Rattle.debug_text.specs.Tables.{tables_of};

use bench_core::Core;
use bench_item::Role;
use debug_text::TableBook;

/// The laws and the tables of a bench: what `read_command` reads by and `put_reply` prints by. Takes no memory.
pub fn tables_in(core: &Core) -> TableBook<'_>
    ensures { tables_of result ≡ tables_in core.now.settings }
{
    TableBook {
        laws: core.laws(),
        peer: core.table(Role::Peer),
        client: core.table(Role::Client),
        server: core.table(Role::Server),
    }
}
