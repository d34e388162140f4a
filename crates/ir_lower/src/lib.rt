//! Lowering: from a checked text to a package of the intermediate language that means the same.
//!
//! Each proc of the text's network becomes an IR proc, and each of its channels one of the package. What the nodes of a proc do follows
//! from the types of its parts, which are computed first; that the package has the text's network, breaks no rule and passes no limit is
//! tested of the package as it was made.
//!
//! It takes time and memory as the procs of the network are large, with their calls and turns put in place.
#![tactic(auto)]

mod channels;
mod constants;
mod deep;
mod laws;
mod members;
mod procs;
mod same;
mod signatures;
pub mod types;
mod whole;

pub use laws::packages_mean_the_text;
pub use whole::lower;
