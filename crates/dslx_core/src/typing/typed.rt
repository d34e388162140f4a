//! What has a type has a value of that type: a law for each construct of the language.
//!
//! Each law speaks of one construct: where its parts give values of the types that the rules give them, it gives one of
//! the type that the rules give it. The laws rest on one relation between a type environment and what is
//! bound there (`specs/Typing/Typed/WellTyped.antt`).
mod arrays;
mod builtins;
mod constants;
mod control;
mod functions;
mod loops;
mod names;
mod operations;
mod parts;
mod patterns;
mod types;
mod written;

pub use arrays::arrays_give_values_of_their_types;
pub use builtins::builtins_give_values_of_their_types;
pub use constants::known_constants_are_sound;
pub use control::{
    blocks_give_values_of_their_types, branches_give_values_of_their_types,
    matches_give_values_of_their_types,
};
pub use functions::{calls_find_their_parametrics, functions_give_values_of_their_types};
pub use loops::loops_give_values_of_their_types;
pub use names::names_give_values_of_their_types;
pub use operations::operations_give_values_of_their_types;
pub use parts::{
    parts_give_values_of_their_types, structs_give_values_of_their_types,
    tuples_give_values_of_their_types,
};
pub use patterns::patterns_keep_names_typed;
pub use types::{a_value_has_one_type, equal_types_of_a_text_are_one};
pub use written::known_types_are_sound;
