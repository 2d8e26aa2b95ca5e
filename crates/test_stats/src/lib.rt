//! Tests of what an operator is told each second, over public calls alone.
#![tactic(auto)]

#[cfg(test)]
mod lines;
#[cfg(test)]
mod times;
