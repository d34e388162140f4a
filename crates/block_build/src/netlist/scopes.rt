//! What the nodes of a stage read.

ghost use Rattle.std.specs.Prelude.{◌≡◌, [], ◌∷◌, map, take, drop, slice_get, IfOk, Some};
ghost use Rattle.std.specs.Option.{option_copied};
ghost use Rattle.ir_tree.specs.Types.{ty_of};
ghost use Rattle.ir_tree.specs.Rules.Fitting.{type_in};
ghost use Rattle.block_build.specs.Netlist.Leaves.{all_leaves, first_or, leaf_widths};
ghost use Rattle.block_build.specs.Netlist.Pure.{scope_types, shown_in, type_given, operand_width, operand_size, number_in};

use crate::netlist::leaves::widths_of;
use crate::netlist::literals::zeros;
use crate::netlist::places::Places;
use ir_tree::node_types::{bits_width, bounded, sizes_of};
use ir_tree::{Channel, IrType, Node, Operand};
use std::alloc::{AllocError, Global};
use vlog_tree::Atom;
use xb_value::{Seq, at};

/// Where a node stands: the channels of its package, the state and the nodes before it in its proc, the places of their values,
/// and a stage.
#[derive(Clone, Copy)]
pub struct Scope<'a> {
    pub channels: &'a [Channel],
    pub state: &'a IrType,
    pub before: &'a [Node],
    pub places: &'a Places,
    pub stage: u32,
}

/// The signal of a number, and how many bits it has.
#[derive(Clone, Copy)]
pub struct Number {
    pub atom: Atom,
    pub width: u64,
}

impl<'a> Scope<'a> {
    /// The type of an operand, if it is there.
    pub fn type_of(self, operand: Operand) -> Option<&'a IrType>
        ensures { type_given (option_copied result) ≡ type_in (scope_types self.entry) operand }
    {
        match operand {
            Operand::State => Some(self.state),
            Operand::Node(node) => match at(self.before, node as usize) {
                Some(node) => Some(&node.ty),
                None => None,
            },
        }
    }

    /// How many bits an operand has that is a number.
    pub fn width_of(self, operand: Operand) -> u64
        ensures { result ≡ operand_width self.entry operand }
    {
        match self.type_of(operand) {
            Some(ty) => bounded(bits_width(ty)),
            None => 0,
        }
    }

    /// How many elements an operand has that is an array.
    pub fn size_of(self, operand: Operand) -> u64
        ensures { result ≡ operand_size self.entry operand }
    {
        match self.type_of(operand) {
            Some(ty) => match sizes_of(ty) {
                [] => 0,
                [size, ..] => bounded(*size),
            },
            None => 0,
        }
    }

    /// The widths of the numbers in an operand's values.
    pub fn widths_of(self, alloc: Global, operand: Operand) -> Result<Vec<u64>, AllocError>
        ensures { IfOk result (λ widths. widths.items ≡ leaf_widths (ty_of (type_in (scope_types self.entry) operand))) }
    {
        match self.type_of(operand) {
            Some(ty) => widths_of(alloc, ty),
            None => Ok(Vec::new(alloc)),
        }
    }

    /// The signals of an operand.
    pub fn operand(self, alloc: Global, operand: Operand) -> Result<Seq<Atom>, AllocError>
        ensures { IfOk result (λ atoms. atoms ≡ shown_in self.entry operand) }
    {
        self.places.operand(alloc, self.stage, operand)
    }

    /// Those of several operands.
    pub fn operands(self, alloc: Global, operands: &[Operand]) -> Result<Vec<Seq<Atom>>, AllocError>
        ensures { IfOk result (λ shown. shown.items ≡ map (shown_in self.entry) operands.now) }
    {
        self.places.operands(alloc, self.stage, operands)
    }

    /// An operand that is a number.
    pub fn number(self, alloc: Global, operand: Operand) -> Result<Number, AllocError>
        ensures { IfOk result (λ number. number ≡ number_in self.entry (Some operand)) }
    {
        let atoms = self.operand(alloc, operand)?;
        Ok(Number {
            atom: first_of(atoms.as_slice()),
            width: self.width_of(operand),
        })
    }

    /// The operand of an index.
    pub fn number_at(
        self,
        alloc: Global,
        operands: &[Operand],
        i: usize,
    ) -> Result<Number, AllocError>
        ensures { IfOk result (λ number. number ≡ number_in self.entry (slice_get operands.now i)) }
    {
        match at(operands, i) {
            Some(operand) => self.number(alloc, *operand),
            None => Ok(Number {
                atom: zeros(1),
                width: 0,
            }),
        }
    }
}

/// The first of some signals.
pub fn first_of(atoms: &[Atom]) -> Atom
    ensures { result ≡ first_or atoms.now }
{
    match atoms {
        [] => zeros(1),
        [atom, ..] => *atom,
    }
}

/// The signals of all numbers in some values, one value behind another.
pub fn all_of(alloc: Global, values: &[Seq<Atom>]) -> Result<Seq<Atom>, AllocError>
    ensures { IfOk result (λ all. all ≡ all_leaves values.now) }
{
    let mut all = Vec::new(alloc);
    'values: for value in values {
        all.extend_from_slice(value.as_slice())?;
    }
    Ok(Seq::from_vec(all))
}

/// One signal.
pub fn one(alloc: Global, atom: Atom) -> Result<Seq<Atom>, AllocError>
    ensures { IfOk result (λ atoms. atoms ≡ atom ∷ []) }
{
    let mut atoms = Seq::new(alloc);
    atoms.push(atom)?;
    Ok(atoms)
}

/// So many of the first signals.
pub fn front(atoms: &[Atom], count: usize) -> &[Atom]
    ensures { result.now ≡ take count atoms.now }
{
    &atoms[..count.min(atoms.len())]
}

/// Those behind so many.
pub fn behind(atoms: &[Atom], count: usize) -> &[Atom]
    ensures { result.now ≡ drop count atoms.now }
{
    &atoms[count.min(atoms.len())..]
}
