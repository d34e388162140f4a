//! Steps where several expressions of a body are lowered one after another: tuples, arrays, structs, and operands of calls.
#![tactic(auto)]

mod array;
mod call;
mod fields;
mod order;
mod structs;

pub use array::begin_array;
/// Of the crates below, passed on: a crate that stands on this one need not name them too.
pub use dslx_instance::steps::{
    begin_choice, begin_loop, begin_match, begin_statements, make_binary, make_bind, make_cast,
    make_choice, make_element, make_indexed, make_part, make_prefix, make_slice,
};
pub use dslx_scope_names::scopes::{
    bound_in_body, literal_if, member_named, name_in_body, number_in_body, struct_named,
    type_in_body,
};
pub use fields::{take_field, take_others};
pub use order::{gather, take_part};
pub use structs::begin_struct;
