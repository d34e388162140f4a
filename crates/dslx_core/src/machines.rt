//! The machine that makes instances of functions, as a definition, and its laws.
pub mod alike;
pub mod extension;
pub mod machine;
pub mod once;
pub mod progress;
