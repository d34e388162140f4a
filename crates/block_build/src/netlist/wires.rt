//! Wires that are put one behind another.

ghost use Rattle.std.specs.Prelude.{◌≡◌, [], ◌∷◌, IfOk, OnOk};
ghost use Rattle.vlog_tree.specs.Value.{atom_value};
ghost use Rattle.block_build.specs.Netlist.Added.{next_number, AddsWires, Puts, PutsNet};
ghost use Rattle.block_build.specs.Netlist.Gates.{not_gate, and_gate, or_gate, choice_gate, binary_gate};
ghost use Rattle.block_build.specs.Netlist.Operators.{simple_gate, unary_gate};

use std::alloc::{AllocError, Global};
use vlog_tree::{Atom, Binary, Expr, Signal, Simple, Unary};

/// A wire: how many bits it has, and what drives it. Its name is its number.
#[derive(Drop)]
pub struct Wire {
    pub width: u64,
    pub driver: Expr,
}

/// Wires with the numbers from one on.
#[derive(Drop)]
pub struct WireList {
    pub first: u32,
    pub wires: Vec<Wire>,
}

impl WireList {
    /// No wire yet. The next one has this number.
    pub fn new(alloc: Global, first: u32) -> WireList
        ensures { (result.first ≡ first) × (result.wires.items ≡ []) }
    {
        WireList {
            first,
            wires: Vec::new(alloc),
        }
    }

    /// The number of the next wire. No number is past 2^32 - 2.
    pub fn next(&self) -> Result<u32, AllocError>
        ensures { IfOk result (λ number. number ≡ next_number self.now) }
    {
        let number = u64::from(self.first).saturating_add(self.wires.len() as u64);
        if number < 0xffff_ffff {
            Ok(number as u32)
        } else {
            Err(AllocError)
        }
    }

    /// One wire more, and its signal. In each cycle it carries the value of what drives it, and so do those before.
    pub fn wire(&mut self, width: u64, driver: Expr) -> Result<Signal, AllocError>
        ensures number { IfOk result (λ signal. signal.0 ≡ next_number self.old) }
        ensures puts { OnOk result (Puts self.old self.new (record { width = width; driver = driver } ∷ [])) }
    {
        let number = self.next()?;
        self.wires.push(Wire { width, driver })?;
        Ok(Signal(number))
    }

    /// The same, with its signal as an atom.
    pub fn driven(&mut self, width: u64, driver: Expr) -> Result<Atom, AllocError>
        ensures { IfOk result (PutsNet self.old self.new (record { width = width; driver = driver })) }
    {
        Ok(Atom::Signal(self.wire(width, driver)?))
    }

    /// A wire that carries what a simple expression is worth.
    pub fn simple(&mut self, width: u64, driver: Simple) -> Result<Atom, AllocError>
        ensures { IfOk result (PutsNet self.old self.new (simple_gate width driver)) }
    {
        self.driven(width, Expr::Simple(driver))
    }

    /// One that carries what an operator makes of two numbers.
    pub fn binary(
        &mut self,
        width: u64,
        operator: Binary,
        a: Atom,
        b: Atom,
    ) -> Result<Atom, AllocError>
        ensures { IfOk result (PutsNet self.old self.new (binary_gate width operator a b)) }
    {
        self.simple(width, Simple::Binary(operator, a, b))
    }

    /// One that carries what an operator makes of a number.
    pub fn unary(&mut self, width: u64, operator: Unary, a: Atom) -> Result<Atom, AllocError>
        ensures { IfOk result (PutsNet self.old self.new (unary_gate width operator a)) }
    {
        self.simple(width, Simple::Unary(operator, a))
    }

    /// One that carries the first number where the bit is 1, the second where it is 0.
    pub fn choice(&mut self, width: u64, bit: Atom, a: Atom, b: Atom) -> Result<Atom, AllocError>
        ensures { IfOk result (PutsNet self.old self.new (choice_gate width bit a b)) }
    {
        self.driven(width, Expr::Choice(bit, Simple::Atom(a), Simple::Atom(b)))
    }

    /// The other bit.
    pub fn inverse(&mut self, a: Atom) -> Result<Atom, AllocError>
        ensures { IfOk result (PutsNet self.old self.new (not_gate a)) }
    {
        self.unary(1, Unary::Complement, a)
    }

    /// Whether both bits are 1.
    pub fn both(&mut self, a: Atom, b: Atom) -> Result<Atom, AllocError>
        ensures { IfOk result (PutsNet self.old self.new (and_gate a b)) }
    {
        self.binary(1, Binary::And, a, b)
    }

    /// Whether one of the bits is 1.
    pub fn either(&mut self, a: Atom, b: Atom) -> Result<Atom, AllocError>
        ensures { IfOk result (PutsNet self.old self.new (or_gate a b)) }
    {
        self.binary(1, Binary::Or, a, b)
    }

    /// A signal that carries the number of an atom.
    pub fn named(&mut self, width: u64, a: Atom) -> Result<Signal, AllocError>
        ensures { IfOk result (λ signal. AddsWires self.old self.new (λ v. v signal.0 ≡ atom_value v a)) }
    {
        match a {
            Atom::Signal(signal) => Ok(signal),
            Atom::Literal(_) => self.wire(width, Expr::Simple(Simple::Atom(a))),
        }
    }
}
