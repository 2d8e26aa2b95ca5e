//! The pages of the account book for threads: each behind a lock of its own.
//!
//! | Who | Touches | Under |
//! |---|---|---|
//! | `Pages::with_page` | one page, and nothing else | that page's lock, for one call of its closure |
//! | `Pages::into_pages` | all pages | none: no thread has them then |
//!
//! No call takes two locks.
#![tactic(auto)]

mod pages;

pub use pages::Pages;
