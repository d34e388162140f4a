//! What the rules of atoms and of arguments between `<` and `>` make of the parts of their symbols.
//!
//! Each call takes the parts of a rule's symbols off the stacks and puts there what stands for them. Its cost is that of the
//! lists that it takes.
mod args;
mod atoms;
mod calls;
mod exprs;
mod rule;

pub use exprs::{pop_boxed, pop_expr, push_expr};
pub use rule::{ArgAction, AtomAction, reduce_arg, reduce_atom};
