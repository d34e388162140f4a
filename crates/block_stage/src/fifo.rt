//! FIFOs of hardware: what one holds, gives and takes in a clock cycle, and two layouts of its registers.
pub mod laws;
mod row;

pub use row::RowFifo;
