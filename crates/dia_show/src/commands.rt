//! Names of commands.
ghost use Rattle.std.specs.Prelude.{◌≡◌, ◌++◌, OnOk};
ghost use Rattle.dia_show.specs.Names.{entry_in, letters_of, other_commands, other_letters, command_name};
ghost use Rattle.dia_show.specs.Names.{command_letters, named_text, command_text};

use base_codes::CommandCode;
use std::alloc::AllocError;

#[tactic(auto, unfolding(crate::specs::Names::entry_in))]
fn other_name(number: u32) -> &'static str
    ensures { result.now ≡ entry_in other_commands number }
{
    match number {
        271 => "Accounting",
        274 => "Abort-Session",
        275 => "Session-Termination",
        _ => "",
    }
}

#[tactic(auto, unfolding(crate::specs::Names::entry_in))]
fn other_letters(number: u32) -> &'static str
    ensures { result.now ≡ entry_in other_letters number }
{
    match number {
        271 => "AC",
        274 => "AS",
        275 => "ST",
        _ => "",
    }
}

fn letters_of(code: CommandCode) -> &'static str
    ensures { result.now ≡ letters_of code }
{
    match code {
        CommandCode::CapabilitiesExchange => "CE",
        CommandCode::ReAuth => "RA",
        CommandCode::CreditControl => "CC",
        CommandCode::DeviceWatchdog => "DW",
        CommandCode::DisconnectPeer => "DP",
    }
}

fn command_name(number: u32) -> &'static str
    ensures { result.now ≡ command_name number }
{
    match CommandCode::coded(number) {
        Some(code) => code.name(),
        None => other_name(number),
    }
}

/// The first two letters of the abbreviation of a command, empty where the standards have no such command.
pub fn command_letters(number: u32) -> &'static str
    ensures { result.now ≡ command_letters number }
{
    match CommandCode::coded(number) {
        Some(code) => letters_of(code),
        None => other_letters(number),
    }
}

fn put_named(out: &mut Vec<u8>, letters: &str, name: &str, request: bool) -> Result<(), AllocError>
    ensures { OnOk result (out.new.items ≡ out.old.items ++ named_text letters.now name.now request) }
{
    let (sign, kind) = if request {
        ("R ", "-Request")
    } else {
        ("A ", "-Answer")
    };
    out.extend_from_slice(letters.as_bytes())?;
    out.extend_from_slice(sign.as_bytes())?;
    out.extend_from_slice(name.as_bytes())?;
    out.extend_from_slice(kind.as_bytes())
}

/// Puts the abbreviation and the name of a command, by its Command Code and flag R (RFC 6733 section 3.1, RFC 8506
/// section 3), and where it has none that it is unknown.
pub fn put_command(out: &mut Vec<u8>, number: u32, request: bool) -> Result<(), AllocError>
    ensures { OnOk result (out.new.items ≡ out.old.items ++ command_text number request) }
{
    let letters = command_letters(number);
    if letters.is_empty() {
        return out.extend_from_slice(b"unknown command");
    }
    put_named(out, letters, command_name(number), request)
}
