//! What declarations come to without a walk over their parts, and what is known as more is judged.
#![tactic(auto)]

mod channels;
mod config;
mod doubles;
mod ends;
mod enums;
mod items;
mod names;
mod parametrics;
mod parts;
mod procs;
mod spawns;
mod structs;
mod tops;
mod value_types;
pub mod work;

pub use channels::{channel_names, depth_limit, make_channel};
pub use config::Made;
pub use ends::{NamedEnd, named_end};
pub use enums::{
    MemberSeen, base_if_bits, enum_of_type, member_faults, number_member, type_of_enum,
};
pub use items::{Annotation, ItemSeen, annotation_of, typed_value, unless_broken, written_faults};
pub use names::{NamesBefore, listed_name};
pub use parametrics::bind_if;
pub use parts::{behind_values, parametrics_of, there, values_of};
pub use procs::{add_all, bind_members, result_faults};
pub use spawns::{each_handed, has_right_count, process_named};
pub use structs::struct_type;
pub use tops::{Top, item_names, top_of};
