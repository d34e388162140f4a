//! Types, values, their flat words and their texts.
//!
//! A type or a value is a plain tree to contracts: no capacity and no pointer shows in an equation.
#![tactic(auto)]

mod flat_word;
mod reader;
mod scan;
mod token;
mod ty;
mod unflat_word;
mod value;
mod writer;

pub use flat_word::flat;
pub use reader::{ValueError, read_value};
/// A `Box` that contracts see as its value, a `Vec` that they see as its list, and a look-up in one.
pub use sqlite_items::{Boxed, Items as Seq, at};
pub use ty::{Ty, leaves};
pub use unflat_word::unflat;
pub use value::Value;
pub use writer::{push_value, value_text};
