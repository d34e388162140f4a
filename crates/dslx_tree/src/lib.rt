//! The tree of a DSLX text: modules, items, types, patterns, statements and expressions.
//!
//! A tree is plain data to contracts: each list is a list, and a name is its bytes. Every part that a message can name
//! has its span in the text: that of all its tokens, from the first one to the last. Parentheses round an
//! expression are no part of their own, but a bigger part's span takes them in.
#![tactic(auto)]

mod block;
pub mod chains;
mod expr;
pub mod folds;
mod ident;
mod item;
mod operator;
pub mod operators;
mod pattern;
mod process;
mod type_expr;

pub use block::{Block, Let, Stmt};
pub use expr::{Arg, Arm, Expr, FieldValue, For, Node, Number};
pub use ident::Ident;
pub use item::{
    Alias, Constant, Definition, Enum, Field, Function, Item, Member, Module, Parametric, Struct,
};
pub use operator::{Binary, LEVELS, Prefix};
pub use pattern::{Pattern, Shape};
pub use process::{Channel, Config, ConfigStatement, Direction, End, Next, Proc, Spawn};
pub use type_expr::{TypeExpr, TypeNode};
