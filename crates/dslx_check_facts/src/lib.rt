//! What is known of a text that is checked, and a walk over a part of it.
//!
//! A walk goes down the tree of one item, and no further: what is known of other items stands in tables. What it asks for that isn't
//! there is noted, and the walk goes on as if there were none; then nothing of what it comes to is used, and the part is walked anew
//! once that is known.
#![tactic(auto)]

mod asked;
mod bindings;
mod facts;
mod foreign;
mod instances;
mod items;
pub mod laws;
mod locals;
mod lookups;
mod marks;
mod names;
mod numbers;
mod prefixes;
mod settled;
mod type_env;
mod typed_values;
mod typings;
mod walk;

pub use asked::{Asked, ForeignKey, ForeignPart};
pub use bindings::Bindings;
pub use dslx_const_tasks::Kept;
pub use facts::{DefaultThere, Facts, ForeignSeen, SignatureThere, Sums, TypingThere};
pub use foreign::{default_seen, parameter_seen, signature_seen};
pub use instances::{InstanceKey, Instances};
pub use items::unmarked;
pub use locals::{is_own_name, local_name, local_name_faults};
pub use lookups::{
    Reached, callee_size, constant_type, done, has_member, is_known, member_type, member_value,
    named_type, reached_since,
};
pub use marks::text_is_plain;
pub use names::{member_typing, name_typing};
pub use numbers::{number_in, untyped_value};
pub use prefixes::{Prefix, Prefixes};
pub use settled::ask_settled;
pub use type_env::{MemberEnd, ParametricArg, TypeEnv};
pub use typed_values::gives_type;
pub use walk::{Need, Walk};
