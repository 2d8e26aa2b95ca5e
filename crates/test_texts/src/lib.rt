//! Tests of the texts of tables, over their public calls alone: read, refused, printed and drawn.
#![tactic(auto)]

#[cfg(test)]
mod draws;
#[cfg(test)]
mod joined;
#[cfg(test)]
mod prints;
#[cfg(test)]
mod texts;
