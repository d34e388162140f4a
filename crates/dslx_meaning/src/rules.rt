//! Which rules the parts of a DSLX text break, which limits they pass, and which fault is named.
//!
//! These are definitions, in `specs/`.
