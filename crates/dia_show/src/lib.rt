//! What an AVP says, as text: the names of the standards, and values by their type.
//!
//! | File | What it does |
//! |---|---|
//! | `commands`, `enumerations` | names by number, as the standards have them |
//! | `dates` | Time as a date |
//! | `glossary` | the definitions and the names of numbers that a dictionary adds |
//! | `parts` | text in quotes, octets, addresses |
//! | `values` | the text of an AVP's data by its type |
#![tactic(auto)]

mod commands;
mod dates;
mod enumerations;
mod glossary;
mod parts;
mod values;

pub use commands::{command_letters, put_command};
pub use dates::{put_time, put_utc};
pub use enumerations::enumerated_name;
pub use glossary::{Enumeration, Glossary};
pub use parts::{put_address, put_octets, put_quoted};
pub use values::{put_value, value_name};
