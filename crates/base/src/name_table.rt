//! What names stand for: a table in which a name that is put again stands for what was put last.
mod table;

pub use table::Table;
