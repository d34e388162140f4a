//! Tests of packages, of Verilog modules and of their texts that no call of the program shows,
//! in a crate of their own so that they cost the crates below nothing.
#![tactic(auto)]

#[cfg(test)]
mod modules;
#[cfg(test)]
mod packages;
