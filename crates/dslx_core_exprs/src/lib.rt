//! Checked expressions from their checked parts: types, operators, control, aggregates and calls.
#![tactic(auto)]

pub mod aggregates;
pub mod alike;
pub mod calls;
pub mod control;
pub mod operators;
pub mod types;
