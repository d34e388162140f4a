//! What control comes to, by what its parts come to: blocks and their statements, `if`, `match` and its patterns, `for`, calls and effects.
//!
//! Each function has the typings of a node's parts, types the node, and promises that where these are the judgements of the parts by the
//! definitions, it is the judgement of the node. What recurses along trees is elsewhere.
pub mod calls;
pub mod control;
pub mod effects;
pub mod matches;
pub mod patterns;
