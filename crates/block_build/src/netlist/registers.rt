//! Registers that are laid out one behind another, before all wires.

ghost use Rattle.std.specs.Prelude.{◌≡◌, [], ◌∷◌, replicate, IfOk, OnOk};
ghost use Rattle.block_build.specs.Netlist.Registers.{next_register, Lays, zero_register, count_bits, laid_fifo};

use crate::netlist::fifos::Fifo;
use crate::netlist::literals::zeros;
use std::alloc::{AllocError, Global};
use vlog_tree::{Atom, Signal};

/// A register: how many bits it has, and the number that it is reset to.
#[derive(Drop)]
pub struct Register {
    pub width: u64,
    pub reset: Atom,
}

/// Registers with the numbers from one on.
#[derive(Drop)]
pub struct RegisterList {
    pub first: u32,
    pub registers: Vec<Register>,
}

impl RegisterList {
    /// No register yet. The next one has this number.
    pub fn new(alloc: Global, first: u32) -> RegisterList
        ensures { (result.first ≡ first) × (result.registers.items ≡ []) }
    {
        RegisterList {
            first,
            registers: Vec::new(alloc),
        }
    }

    /// The number of the next register. No number is past 2^32 - 2.
    pub fn next(&self) -> Result<u32, AllocError>
        ensures { IfOk result (λ number. number ≡ next_register self.now) }
    {
        let number = u64::from(self.first).saturating_add(self.registers.len() as u64);
        if number < 0xffff_ffff {
            Ok(number as u32)
        } else {
            Err(AllocError)
        }
    }

    /// One register more, with what it is reset to.
    pub fn register(&mut self, width: u64, reset: Atom) -> Result<Signal, AllocError>
        ensures number { IfOk result (λ signal. signal.0 ≡ next_register self.old) }
        ensures lays { OnOk result (Lays self.old self.new (record { width = width; reset = reset } ∷ [])) }
    {
        let number = self.next()?;
        self.registers.push(Register { width, reset })?;
        Ok(Signal(number))
    }

    /// So many registers more of one width, each reset to 0. The number of the first.
    pub fn zeros(&mut self, count: u32, width: u64) -> Result<u32, AllocError>
        ensures number { IfOk result (λ first. first ≡ next_register self.old) }
        ensures lays { OnOk result (Lays self.old self.new (replicate count (zero_register width))) }
    {
        let first = self.next()?;
        'registers: for _ in 0..count {
            self.register(width, zeros(width))?;
        }
        Ok(first)
    }
}

/// How many bits a count up to a depth has.
fn count_width(depth: u32) -> u64
    ensures { result ≡ count_bits depth }
{
    u64::from((32 - depth.leading_zeros()).max(1))
}

/// Lays out the registers of a FIFO of so many words: its count, and a slot for each.
pub fn lay_fifo(registers: &mut RegisterList, depth: u32, width: u64) -> Result<Fifo, AllocError>
    ensures fifo { IfOk result (λ fifo. fifo ≡ laid_fifo depth width (next_register registers.old)) }
    ensures lays { OnOk result (Lays registers.old registers.new (zero_register (count_bits depth) ∷ replicate depth (zero_register width))) }
{
    let count_width = count_width(depth);
    let count = registers.register(count_width, zeros(count_width))?;
    let slots = registers.zeros(depth, width)?;
    Ok(Fifo {
        depth,
        width,
        count_width,
        count: Atom::Signal(count),
        slots,
    })
}
