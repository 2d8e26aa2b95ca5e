//! Tests of whole runs: a bench is opened, a script is run on it, and what is printed is compared.
#![tactic(auto)]

#[cfg(test)]
mod debugs;
#[cfg(test)]
mod nodes;
#[cfg(test)]
mod runs;
#[cfg(test)]
mod scripts;
