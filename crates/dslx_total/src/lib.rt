//! Each accepted text is lowered to a checked text that has types, with all that it reaches.
#![tactic(auto)]

pub mod checked;
pub mod configs;
pub mod counts;
pub mod designs;
pub mod expressions;
pub mod families;
pub mod instances;
pub mod nets;
pub mod outcomes;
pub mod tables;
pub mod texts;
pub mod typed;
pub mod words;
