//! Uses of other declarations, and calls of functions.
//!
//! Nothing here goes down a tree but for written types, beside the types of operands, to infer parametrics.
#![tactic(auto)]

mod calls;
mod ends;
mod forms;
mod inference;
mod items;
mod parametrics;
mod structs;

pub use calls::{call_of, refused_call};
pub use ends::channel_named;
pub use forms::{CallForm, form_of};
pub use inference::{Inference, Inferred, first_inferred, infer_all, is_one, may_have};
pub use items::{definition, name_of};
pub use parametrics::{CalledItem, ParametricArgs, parametric_args};
pub use structs::{field_of, struct_of};
