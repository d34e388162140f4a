//! The items of a DSLX text: by their names, what the text of each mentions, and which reach one another.
#![tactic(auto)]

mod binds;
mod definitions;
mod mention;
mod mentions;
mod reaching;
mod table;
mod walk;

pub use definitions::{expr_mentions, mentions_of};
pub use mention::{Mention, Use};
pub use reaching::{Reaching, reaching_of};
pub use table::{ItemTable, ident_of};
