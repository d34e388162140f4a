//! What an accepted text is lowered to has types: those of the text, without signs and names.
pub mod expressions;
pub mod instances;
