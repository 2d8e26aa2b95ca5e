//! Tests of what stands behind the words of the program but `read`, over public calls:
//! walks, shipped tables, laws in words, inputs.
#![tactic(auto)]

#[cfg(test)]
mod tests;
