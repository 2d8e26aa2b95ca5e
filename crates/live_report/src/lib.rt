//! What is told of a node that lived, and its files.
//!
//! | File | What it has |
//! |---|---|
//! | `fault` | why a node went no further |
//! | `report` | what is printed of a node |
//! | `paths` | the names of a node's files |
//! | `copies` | what CONFIG names, copied |
//! | `files` | its log and a CONFIG that opens its bench, written |
#![tactic(auto)]

mod copies;
mod fault;
mod files;
mod paths;
mod report;

pub use copies::{CopyError, copy_files};
pub use fault::LifeFault;
pub use files::is_unwritten;
pub use paths::own_files;
pub use report::{put_host, put_node};
