//! Tests of the account book, the timers and the directory, over their public calls alone.
#![tactic(auto)]

#[cfg(test)]
mod book;
#[cfg(test)]
mod directory;
#[cfg(test)]
mod wheel;
