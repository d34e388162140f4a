//! The members of a proc in an instance: their numbers, and the types of the words there.
mod member;
mod outer;

pub use member::member_there;
pub use outer::outer_type;
