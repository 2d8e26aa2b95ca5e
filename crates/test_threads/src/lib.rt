//! Tests of what desks and workers do in threads, over public calls alone.
#![tactic(auto)]

#[cfg(test)]
mod bench;
#[cfg(test)]
mod calls;
#[cfg(test)]
mod case;
#[cfg(test)]
mod held;
#[cfg(test)]
mod met;
#[cfg(test)]
mod tests;
#[cfg(test)]
mod turns;
