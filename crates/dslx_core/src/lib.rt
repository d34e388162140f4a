//! A checked text: each instance with its types, and nothing left to look up.
//!
//! [`typing`] has type soundness, which it stands on, [`machines`] the machine that makes instances, as a definition.
//! Its values are plain: a struct is a tuple, an enum is bits, a token is `()`. `specs/` has its meaning.
#![tactic(auto)]

pub mod behaviors;
pub mod constants;
mod design;
mod expr;
pub mod lowering;
pub mod machines;
pub mod networks;
pub mod preserved;
mod step;
pub mod types;
pub mod typing;

pub use design::{Child, Design, Function, Instance, MadeChannel, Outer};
pub use expr::{Arm, CoreBinary, CoreExpr, CoreUnary, Shape, Sign};
pub use step::{Receive, Send, Step};
