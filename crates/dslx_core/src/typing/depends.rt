//! What judgements of a text depend on: what the global environment has of the items that are mentioned.
//!
//! Two global environments that agree on the items that a part mentions (`specs/Typing/Depends/Alike.antt`) give it the same judgement.
//! So global environments by chains of items settle: longer chains than the text has items add nothing.
mod depends;

pub use depends::{
    a_group_sees_types_alone, a_judgement_depends_on_what_is_mentioned, what_is_known_settles,
};
