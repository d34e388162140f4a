//! The numbers in types and values.

ghost use Rattle.std.specs.Prelude.{◌≡◌, ◌++◌, map, OnOk, IfOk};
ghost use Rattle.ir_tree.specs.Types.{ty_of};
ghost use Rattle.block_build.specs.Netlist.Leaves.{all_leaves, repeated, leaf_widths, literals_of, nets};

use crate::netlist::literals::literal;
use ir_tree::IrType;
use std::alloc::{AllocError, Global};
use vlog_tree::{Atom, Signal};
use xb_value::{Ty, Value};

/// The widths of the numbers in values of a type.
pub fn widths_of(alloc: Global, ty: &IrType) -> Result<Vec<u64>, AllocError>
    ensures { IfOk result (λ widths. widths.items ≡ leaf_widths (ty_of ty.now)) }
{
    let mut widths = Vec::new(alloc);
    let ty = ty.to_ty(alloc)?;
    push_widths(alloc, &ty, &mut widths)?;
    Ok(widths)
}

/// Puts the widths of the numbers in values of a type behind those that are there.
#[cycle(widths)]
pub fn push_widths(alloc: Global, ty: &Ty, widths: &mut Vec<u64>) -> Result<(), AllocError>
    ensures { OnOk result (widths.new.items ≡ widths.old.items ++ leaf_widths ty.now) }
{
    match ty {
        Ty::Bits(width) => {
            widths.push(*width)?;
            Ok(())
        }
        Ty::Tuple(parts) => push_all_widths(alloc, parts.as_slice(), widths),
        Ty::Array(element, count) => {
            let mut own = Vec::new(alloc);
            push_widths(alloc, element.get(), &mut own)?;
            push_times(&own, *count, widths)
        }
    }
}

/// Those of several types, one type behind another.
#[cycle(widths)]
fn push_all_widths(alloc: Global, parts: &[Ty], widths: &mut Vec<u64>) -> Result<(), AllocError>
    ensures { OnOk result (widths.new.items ≡ widths.old.items ++ all_leaves (map leaf_widths parts.now)) }
{
    'parts: for part in parts {
        push_widths(alloc, part, widths)?;
    }
    Ok(())
}

/// Some widths so many times.
fn push_times(own: &[u64], count: u64, widths: &mut Vec<u64>) -> Result<(), AllocError>
    ensures { OnOk result (widths.new.items ≡ widths.old.items ++ repeated count own.now) }
{
    'elements: for _ in 0..count {
        widths.extend_from_slice(own)?;
    }
    Ok(())
}

/// Puts the literals of the numbers in a value behind those that are there.
#[cycle(literals)]
pub fn push_literals(value: &Value, atoms: &mut Vec<Atom>) -> Result<(), AllocError>
    ensures { OnOk result (atoms.new.items ≡ atoms.old.items ++ literals_of value.now) }
{
    match value {
        Value::Bits(bits) => {
            atoms.push(literal(u64::from(bits.width()), bits.value()))?;
            Ok(())
        }
        Value::Tuple(parts) => push_all_literals(parts.as_slice(), atoms),
        Value::Array(parts) => push_all_literals(parts.as_slice(), atoms),
    }
}

/// Those of several values, one value behind another.
#[cycle(literals)]
fn push_all_literals(parts: &[Value], atoms: &mut Vec<Atom>) -> Result<(), AllocError>
    ensures { OnOk result (atoms.new.items ≡ atoms.old.items ++ all_leaves (map literals_of parts.now)) }
{
    'parts: for part in parts {
        push_literals(part, atoms)?;
    }
    Ok(())
}

/// Puts so many signals behind those that are there, the first with this number. No number is past 2^32 - 2.
pub fn push_signals(first: u32, count: usize, atoms: &mut Vec<Atom>) -> Result<(), AllocError>
    ensures { OnOk result (atoms.new.items ≡ atoms.old.items ++ nets first count) }
{
    'signals: for i in 0..count {
        let number = u64::from(first).saturating_add(i as u64);
        if 0xffff_ffff <= number {
            return Err(AllocError);
        }
        atoms.push(Atom::Signal(Signal(number as u32)))?;
    }
    Ok(())
}
