//! The shape of a DSLX tree as a text, for tests and for those who look at trees.
//!
//! Each node is `(`, its name, its parts and `)`, with a blank before each word: `1 + 2 * x` has the shape `(+ 1 (* 2 x))`.
//! [`spanned_shape`] has before each part its span, where there is one, as `@4..9`. What a shape says no contract tells:
//! it is for tests and for a reader of trees.
//!
//! Cost: linear in the tree. Nothing recurses, since what is still to be printed stands on a stack of its own.
mod atoms;
mod branches;
mod exprs;
mod items;
mod operators;
mod part;
mod patterns;
mod printer;
mod procs;
mod types;

pub use printer::{shape, spanned_shape};
