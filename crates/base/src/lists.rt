//! Words on lists that several crates use and std lacks: prefixes, and the first fault of a list against a language.
//!
//! There is no code here, but definitions (`specs/`) and a public library of lemmas on them and on the indices of a
//! list (`proofs/Lemmas/`).
