//! Tests of the faults and encodings of trees of AVPs, and of what messages say in names,
//! in lines of text and as JSON, over public calls alone.
#![tactic(auto)]

#[cfg(test)]
mod dictionaries;
#[cfg(test)]
mod json_lines;
#[cfg(test)]
mod json_values;
#[cfg(test)]
mod messages;
#[cfg(test)]
mod octets;
#[cfg(test)]
mod tree;
#[cfg(test)]
mod values;
