//! The styles in which the program prints messages.

/// In which style the program prints messages.
///
/// A style is a name that words on a command line ask for.
/// A [`crate::Printer`] does the printing: `msg_text` has one for each style.
#[derive(Clone, Copy, PartialEq, Eq)]
pub enum Style {
    /// Numbers and hexadecimal: a line for the header, for each AVP and for the encoding; `fault` with its Result-Code.
    Plain,
    /// Names and values, where each part lies, and in words what is wrong.
    Explained,
    /// An object of JSON, a line each.
    Json,
}
