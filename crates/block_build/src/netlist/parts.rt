//! The signals of parts of tuples and arrays.

ghost use Rattle.std.specs.Prelude.{◌≡◌, ◌∷◌, [], map, get_or, IfOk};
ghost use Rattle.ir_tree.specs.Types.{ty_of};
ghost use Rattle.block_build.specs.Netlist.Leaves.{leaf_counts, parts_of, repeated};
ghost use Rattle.block_build.specs.Netlist.Pure.{numbers_below};

use crate::netlist::leaves::widths_of;
use crate::netlist::scopes::{behind, front};
use ir_tree::IrType;
use std::alloc::{AllocError, Global};
use vlog_tree::Atom;
use xb_value::Seq;

/// Of the signals of a tuple those of its part of an index. It recurses once a part of a tuple.
pub fn part_at(
    alloc: Global,
    parts: &[IrType],
    atoms: &[Atom],
    index: u128,
) -> Result<Seq<Atom>, AllocError>
    ensures { IfOk result (λ part. part ≡ get_or (parts_of (leaf_counts (map ty_of parts.now)) atoms.now) index []) }
{
    match parts {
        [] => Ok(Seq::new(alloc)),
        [first, parts @ ..] => {
            let count = widths_of(alloc, first)?.len();
            if index == 0 {
                Seq::from_slice(alloc, front(atoms, count))
            } else {
                part_at(alloc, parts, behind(atoms, count), index - 1)
            }
        }
    }
}

/// The elements of an array of so many, each with so many signals.
pub fn elements_of(
    alloc: Global,
    atoms: &[Atom],
    count: u64,
    each: usize,
) -> Result<Vec<Seq<Atom>>, AllocError>
    ensures { IfOk result (λ elements. elements.items ≡ parts_of (repeated count (each ∷ [])) atoms.now) }
{
    let mut elements = Vec::new(alloc);
    let mut rest = atoms;
    'elements: for _ in 0..count {
        elements.push(Seq::from_slice(alloc, front(rest, each))?)?;
        rest = behind(rest, each);
    }
    Ok(elements)
}

/// How many of so many numbers so many bits can have.
pub fn numbers_of(bits: u64, count: usize) -> usize
    ensures { result ≡ numbers_below bits count }
{
    if 64 <= bits {
        return count;
    }
    count.min(1 << bits)
}
