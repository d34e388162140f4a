//! The types of a text, each once.
mod measures;
mod row;
mod table;

pub use measures::TypeMeasures;
pub use row::{TypeId, TypeRow};
pub use table::TypeTable;
