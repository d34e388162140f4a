//! Lemmas on the trees of DSLX texts: what folds over them come to, and induction on all sorts of parts at once.
//!
//! There is no code here, but a public library of lemmas (`proofs/Lemmas/`).
