use crate::expr::CoreExpr;
use crate::step::Step;
use base::texts::Name;
use net_core::Kind;
use xb_value::{Seq, Ty, Value};

/// A checked text.
#[derive(Drop)]
pub struct Design {
    /// The top proc's name.
    pub name: Name,
    /// The outer channels, in the order of the top's ends.
    pub outer: Seq<Outer>,
    /// Instances of functions. Each calls only those before it.
    pub functions: Seq<Function>,
    /// Instances of procs. Each spawns only those before it, and the last one is the top.
    pub procs: Seq<Instance>,
}

/// An outer channel.
#[derive(Drop)]
pub struct Outer {
    pub name: Name,
    pub ty: Ty,
    pub kind: Kind,
}

/// An instance of a function: an expression over its operands.
#[derive(Drop)]
pub struct Function {
    pub arity: u64,
    pub body: CoreExpr,
}

/// An instance of a proc.
#[derive(Drop)]
pub struct Instance {
    /// The channels that its `config` makes, in the order of the text.
    pub made: Seq<MadeChannel>,
    /// The procs that it starts, in the order of the text.
    pub children: Seq<Child>,
    /// The end of each member: a number of those that `config` takes, and behind these of the channels that it makes.
    pub members: Seq<u64>,
    /// How many ends `config` takes.
    pub ends: u64,
    pub state: Ty,
    pub opening: Value,
    pub steps: Seq<Step>,
    /// The next state.
    pub next: CoreExpr,
}

/// A channel that a `config` makes.
#[derive(Drop)]
pub struct MadeChannel {
    /// Its string.
    pub name: Name,
    pub ty: Ty,
    pub depth: u32,
}

/// A proc that a `config` starts: the number of its instance, and the ends that are its arguments.
#[derive(Drop)]
pub struct Child {
    pub instance: u64,
    pub ends: Seq<u64>,
}
