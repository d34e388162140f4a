//! Designs that are made from a seed, and what runs and simulations of them give.
//!
//! Cost: a design takes time and memory as its text is long, a line as the words that it counts are many; a row of a module that is fed takes time as the module is long.
#![tactic(auto)]

pub mod design;
pub mod events;
pub mod feed;
pub mod level;
