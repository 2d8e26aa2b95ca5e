//! The text of a log, and the name of its file.
#![tactic(auto, using(crate::proofs::LogLemmas::entries))]

ghost use Rattle.std.specs.Prelude.{◌≡◌, ◌++◌, ◌∷◌, [], IfOk, OnOk, flat_map};
ghost use Rattle.hex.specs.Hex.{encode_lower};
ghost use Rattle.node_logs.specs.Logs.{file_name, file_octet, log_text};

use base_text::put_hex;
use bench_nodes::{Core, put_taken};
use std::alloc::{AllocError, Global};
use step_text::is_plain;

/// Puts `%` and the two digits of an octet.
fn put_digits(out: &mut Vec<u8>, octet: u8) -> Result<(), AllocError>
    ensures { OnOk result (out.new.items ≡ out.old.items ++ 37 ∷ encode_lower (octet ∷ [])) }
{
    out.extend_from_slice(b"%")?;
    put_hex(out, &[octet])
}

/// Puts an octet of a host into the name of a file.
fn put_file_octet(out: &mut Vec<u8>, octet: u8) -> Result<(), AllocError>
    ensures { OnOk result (out.new.items ≡ out.old.items ++ file_octet octet) }
{
    if is_plain(octet) && octet != b'/' {
        return out.extend_from_slice(&[octet]);
    }
    put_digits(out, octet)
}

/// Puts a host into the name of a file. A slash, a blank, `%` and what is no ASCII that is shown is `%` and two
/// hexadecimal digits, so that no host leads out of a folder.
pub fn put_file_host(out: &mut Vec<u8>, host: &[u8]) -> Result<(), AllocError>
    ensures { OnOk result (out.new.items ≡ out.old.items ++ flat_map file_octet host.now) }
{
    for octet in host {
        put_file_octet(out, *octet)?;
    }
    Ok(())
}

/// Puts the name of the file of a host's log, `s.example.log`.
pub fn put_file_name(out: &mut Vec<u8>, host: &[u8]) -> Result<(), AllocError>
    ensures { OnOk result (out.new.items ≡ out.old.items ++ file_name host.now) }
{
    put_file_host(out, host)?;
    out.extend_from_slice(b".log")
}

/// The text of a bench's log, which is a script: run on a bench that is opened alike, it prints itself.
pub fn log_text(alloc: Global, core: &Core) -> Result<Vec<u8>, AllocError>
    ensures { IfOk result (λ text. text.items ≡ log_text core.now) }
{
    let mut out = Vec::new(alloc);
    'places: for place in 0..core.place() {
        if let Some(entry) = core.log().entry(place, alloc)? {
            put_taken(alloc, core, &entry, &mut out)?;
        }
    }
    Ok(out)
}
