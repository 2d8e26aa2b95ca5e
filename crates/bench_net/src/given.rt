//! One read.
ghost use Rattle.std.specs.Prelude.{◌≡◌, ◌<◌, ◌-◌, ◌+◌, ◌^◌, length};
ghost use Rattle.std.specs.Io.KnownBytes.{Consumes};
ghost use Rattle.bench_net.specs.Givens.{given_by, given_octets, IsGiven};

use base_device::ByteSource;

/// What one read gave.
#[derive(Drop)]
pub(crate) enum Given {
    /// So many octets, at least one.
    Octets(usize),
    /// The end of the input.
    End,
    /// Nothing for now.
    Later,
    /// Nothing, and it may be read again at once.
    Again,
    /// A fault.
    Failed,
}

/// Reads once.
pub(crate) fn read_once<I: ByteSource>(source: &mut I, room: &mut [u8]) -> Given
    requires room { 0 < length room.old }
    requires reads { I.reads source.old < 2 ^ 64 - 1 }
    requires failures { I.failures source.old < 2 ^ 64 - 1 }
    requires blocked { I.blocked source.old < 2 ^ 64 - 1 }
    ensures octets { Consumes (I.remaining source.old) (I.remaining source.new) (given_octets result room.new) }
    ensures given { IsGiven I.remaining I.failures I.blocked source.old source.new (length room.new) result }
    ensures reads { I.reads source.new ≡ I.reads source.old + 1 }
{
    let before = source.blocked();
    let Ok(given) = source.read(room) else {
        return Given::Failed;
    };
    let has_blocked = source.blocked() > before;
    given_by(given, has_blocked)
}

// What a read gave, by its answer and by whether it would have had to wait.
fn given_by(given: Option<usize>, has_blocked: bool) -> Given
    ensures { result ≡ given_by given has_blocked }
{
    match given {
        Some(0) => Given::End,
        Some(count) => Given::Octets(count),
        None if has_blocked => Given::Later,
        None => Given::Again,
    }
}
