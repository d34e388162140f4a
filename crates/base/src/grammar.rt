//! Exact readers from grammars that are given as data.
//!
//! A [`Grammar`] is a context-free grammar as tables, in a form that one token of lookahead decides.
//! [`parse`] gives the derivation of a list of kinds of token, or the first token with which no
//! sentence goes on. Both are exact, for each grammar that passes the test `IsLl1`. [`parse_tree`] says
//! which stretch of a derivation each nonterminal took. What else holds of derivations, prefixes and trees
//! are laws, as [`one_derivation`].
mod bottom_up;
mod laws;
mod parser;
mod table;
mod tree;

pub use bottom_up::{Step, steps};
pub use laws::{
    alternatives, children, linear_derivations, one_beginning, one_derivation, one_tree,
};
pub use parser::{Fault, ParseError, parse};
pub use table::{Grammar, Production, Span, Symbol};
pub use tree::{Node, parse_tree};
