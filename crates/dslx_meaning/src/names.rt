//! What names stand for in a text: what is bound in a scope, its items, and what is called.
mod bound_names;
mod callee;
pub mod const_machine;
mod items;
mod scope;
pub mod sites;

pub use bound_names::BoundNames;
pub use callee::{Callee, callee_of};
pub use items::{
    find_constant, find_enum, find_field, find_function, find_item, find_member, find_struct,
};
pub use scope::{Binding, Scope};
