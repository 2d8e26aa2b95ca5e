//! What a bench is opened with, and why it is not opened.
//!
//! | File | What it has |
//! |---|---|
//! | `account` | an account as it is opened |
//! | `config` | all that a bench is opened with |
//! | `fault` | why it is not opened |
//! | `opening` | the first of the reasons that holds |
//! | `limits`, `names`, `accounts` | a reason each |
//! | `books`, `kinds` | whether the registries' laws are the same, and have the kinds of all roles |
//! | `unbound` | the first name of the tables that the laws lack |
#![tactic(auto)]

mod account;
mod accounts;
mod books;
mod config;
mod fault;
mod kinds;
mod limits;
mod names;
mod opening;
mod unbound;

pub use account::Account;
pub use config::Config;
pub use fault::OpeningFault;
pub use opening::opening_fault;
