//! Whole expressions: what breaks no rule, and reaches nothing that does, has a type and a value of it.
//!
//! The law of whole expressions is `an_expression_has_its_value`. Each other law speaks of one construct: where its parts
//! have values of their types wherever nothing is wrong with them, so has it (`specs/Typing/Sound.antt`).
mod aggregates;
mod calls;
mod constants;
mod control;
mod matches;
mod names;
mod operations;
mod patterns;
mod types;
mod whole;

pub use aggregates::aggregates_have_values_of_their_types;
pub use calls::calls_have_values_of_their_types;
pub use constants::constants_have_values;
pub use control::control_has_values_of_its_types;
pub use matches::matches_have_values_of_their_types;
pub use names::names_have_values_of_their_types;
pub use operations::operators_have_values_of_their_types;
pub use patterns::patterns_keep_places_typed;
pub use types::written_types_are_known;
pub use whole::an_expression_has_its_value;
