//! Tests of what is fed to a bench in threads, and of clients that it serves, over public calls alone.
#![tactic(auto)]

#[cfg(test)]
mod bench;
#[cfg(test)]
mod calls;
#[cfg(test)]
mod case;
#[cfg(test)]
mod client;
#[cfg(test)]
mod fed;
#[cfg(test)]
mod served;
#[cfg(test)]
mod tests;
