//! Tests of what no output shows of DSLX texts, in a crate of their own so that they cost the crates below nothing: all else is in tests/dslx.
#![tactic(auto)]

#[cfg(test)]
mod functions;
pub mod parser;
#[cfg(test)]
mod procs;
#[cfg(test)]
mod shape;
#[cfg(test)]
mod tokens;
#[cfg(test)]
mod values;
