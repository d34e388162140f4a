use crate::constant::Constant;
use crate::ir_type::IrType;
use crate::node::{Node, Operand};
use net_core::Name;
use xb_value::Seq;

/// A package: channels and procs, each named by its index in its list.
///
/// It holds what its text says and no more, so that it and its text determine each other. It means something only where it
/// breaks no rule and passes no limit.
#[derive(Drop)]
pub struct Package {
    pub name: Name,
    pub channels: Seq<Channel>,
    pub procs: Seq<Proc>,
}

/// A channel of words of a type.
#[derive(Drop)]
pub struct Channel {
    pub name: Name,
    pub id: u32,
    pub ty: IrType,
    pub ends: Ends,
}

/// Who is at the ends of a channel.
#[derive(Clone, Copy, PartialEq, Eq)]
pub enum Ends {
    /// The outside sends, a proc receives.
    Input,
    /// A proc sends, the outside receives.
    Output,
    /// Procs are at both ends, and so many words fit between them.
    Inner(u128),
}

/// A proc: its state's type and its first state, its nodes in the order of their lines, and what the next state is.
#[derive(Drop)]
pub struct Proc {
    pub name: Name,
    pub state: IrType,
    pub init: Constant,
    pub nodes: Seq<Node>,
    pub next: Operand,
}
