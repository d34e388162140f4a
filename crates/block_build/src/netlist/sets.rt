//! What a module's registers take at a clock edge.

ghost use Rattle.std.specs.Prelude.{◌≡◌, ℕ, List, IfOk};
ghost use Rattle.vlog_tree.specs.declared.expression.Atom.{Atom as SomeAtom};
ghost use Rattle.vlog_tree.specs.Meaning.{taken_by};
ghost use Rattle.vlog_tree.specs.Value.{Values};
ghost use Rattle.block_build.specs.Netlist.Registers.{AreTaken, resets_of, sets_from};

use crate::netlist::registers::Register;
use sqlite_items::Items;
use std::alloc::{AllocError, Global};
use vlog_tree::{Atom, Set, Signal};

/// Registers one behind another take what stands on the signals of their sets.
pub fn registers_take_their_sets()
    ensures { (v held : Values) (k : ℕ) (nexts : List SomeAtom) → AreTaken v (taken_by (sets_from k nexts) v held) k nexts }
{}

/// The sets of registers from one on. No number is past 2^32 - 2.
pub fn sets(alloc: Global, first: u32, values: &[Atom]) -> Result<Items<Set>, AllocError>
    ensures { IfOk result (λ sets. sets ≡ sets_from first values.now) }
{
    let mut sets = Items::new(alloc);
    'sets: for i in 0..values.len() {
        let number = u64::from(first).saturating_add(i as u64);
        if 0xffff_ffff <= number {
            return Err(AllocError);
        }
        let value = values[i];
        sets.push(Set {
            target: Signal(number as u32),
            value,
        })?;
    }
    Ok(sets)
}

/// What registers are reset to.
pub fn resets(alloc: Global, registers: &[Register]) -> Result<Vec<Atom>, AllocError>
    ensures { IfOk result (λ resets. resets.items ≡ resets_of registers.now) }
{
    let mut resets = Vec::new(alloc);
    'registers: for register in registers {
        resets.push(register.reset)?;
    }
    Ok(resets)
}
