//! The logs of nodes as files: their text, their names, and who writes them.
//!
//! | File | What it has |
//! |---|---|
//! | `files` | who writes files |
//! | `folder` | files of the system |
//! | `text` | the text of a log, and the name of its file |
//! | `logs` | the logs of nodes, written |
#![tactic(auto)]

mod files;
mod folder;
mod logs;
mod text;

pub use bench_nodes::Core;
pub use files::{FileError, FileSink};
pub use folder::Folder;
pub use logs::{LogError, unwritten_text, write_log, write_logs};
pub use text::{log_text, put_file_host, put_file_name};
