//! What goes through the ports of a package's module, as a simulation of it shows it: prefixes of the words that the package's
//! network sends.
//!
//! There is no code here, but definitions (`specs/Streams/`) and the laws.
pub mod laws;
