ghost use Rattle.std.specs.Prelude.{◌≤◌};

use crate::expression::{Atom, Expr};
use crate::signal::Signal;
use base::texts::Name;
use sqlite_items::Items;

/// A module: its ports, its wires and registers, what drives each wire, and what each register takes next.
#[derive(Drop)]
pub struct VModule {
    pub name: Name,
    pub ports: Items<Port>,
    pub declarations: Items<Declaration>,
    pub assignments: Items<Assignment>,
    /// What registers take in a cycle in which `rst` is 1.
    pub at_reset: Items<Set>,
    /// What registers take in every other cycle.
    pub at_clock: Items<Set>,
}

/// A port, which is a wire.
#[derive(Drop)]
pub struct Port {
    pub direction: Direction,
    pub name: Name,
    /// How many bits it has.
    pub width: u64,
    ghost some_width: { 1 ≤ width },
}

/// Who drives a port.
#[derive(Clone, Copy, PartialEq, Eq)]
pub enum Direction {
    /// The outside.
    Input,
    /// The module.
    Output,
}

/// A wire or a register of the module's own.
#[derive(Drop)]
pub struct Declaration {
    pub storage: Storage,
    pub name: Name,
    /// How many bits it has.
    pub width: u64,
    ghost some_width: { 1 ≤ width },
}

/// What a declared name is.
#[derive(Clone, Copy, PartialEq, Eq)]
pub enum Storage {
    Wire,
    Register,
}

/// `assign target = value;`
#[derive(Drop)]
pub struct Assignment {
    pub target: Signal,
    pub value: Expr,
}

/// `target <= value;`
#[derive(Drop)]
pub struct Set {
    pub target: Signal,
    pub value: Atom,
}
