//! What a written type says of the numbers in it, beside the type of an operand.

ghost use Rattle.std.specs.Prelude.{◌≡◌, ◌++◌, OnOk, map};
ghost use Rattle.std.specs.Option.{option_copied};
ghost use Rattle.dslx_meaning.specs.Inference.{inferred_in, named_number, infer_width as from_width, infer_tuple as from_tuple, infer_array as from_array, infer_each as from_each};
ghost use Rattle.dslx_meaning.specs.declared.ty.DslxType.{out-DslxType};
ghost use Rattle.dslx_values.specs.Inference.Inferences.{inferred};
ghost use Rattle.dslx_values.specs.Inference.Inner.Names.{name_of as the_name};

use crate::inference::inference::Inference;
use base::texts::Name;
use dslx_meaning::DslxType;
use dslx_tree::{Expr, Node, TypeExpr, TypeNode};
use std::alloc::AllocError;

/// Adds what a written type infers.
#[cycle(infer)]
#[tactic(auto, using(crate::proofs::OnInference::Levels::infers_by_level))]
pub(crate) fn infer<'a>(
    written: &'a TypeExpr,
    ty: &DslxType,
    found: &mut Vec<Inference<'a>>,
) -> Result<(), AllocError>
    ensures { OnOk result (map inferred found.new.items ≡ map inferred found.old.items ++ inferred_in written.now ty.now) }
{
    match &written.node {
        TypeNode::Wide(signed, width) => infer_width(*signed, width.get(), ty, found),
        TypeNode::Tuple(parts) => infer_tuple(parts.as_slice(), ty, found),
        TypeNode::Array(part, size) => infer_array(part.get(), size.get(), ty, found),
        TypeNode::Bits(_, _) => Ok(()),
        TypeNode::Bool => Ok(()),
        TypeNode::Name(_) => Ok(()),
    }
}

fn infer_width<'a>(
    signed: bool,
    width: &'a Expr,
    ty: &DslxType,
    found: &mut Vec<Inference<'a>>,
) -> Result<(), AllocError>
    ensures { OnOk result (map inferred found.new.items ≡ map inferred found.old.items ++ from_width signed (the_name width.now) (out-DslxType ty.now)) }
{
    match ty {
        DslxType::Bits(sign, number) => if signed == *sign {
            note(name_of(width), *number, found)
        } else {
            Ok(())
        },
        _ => Ok(()),
    }
}

#[cycle(infer)]
fn infer_tuple<'a>(
    parts: &'a [TypeExpr],
    ty: &DslxType,
    found: &mut Vec<Inference<'a>>,
) -> Result<(), AllocError>
    ensures { OnOk result (map inferred found.new.items ≡ map inferred found.old.items ++ from_tuple (map inferred_in parts.now) (out-DslxType ty.now)) }
{
    match ty {
        DslxType::Tuple(types) => if parts.len() == types.len() {
            infer_each(parts, types.as_slice(), found)
        } else {
            Ok(())
        },
        _ => Ok(()),
    }
}

/// Adds what each written type infers beside its own type.
#[cycle(infer)]
fn infer_each<'a>(
    parts: &'a [TypeExpr],
    types: &[DslxType],
    found: &mut Vec<Inference<'a>>,
) -> Result<(), AllocError>
    ensures { OnOk result (map inferred found.new.items ≡ map inferred found.old.items ++ from_each (map inferred_in parts.now) types.now) }
{
    'parts: for i in 0..parts.len().min(types.len()) {
        infer(&parts[i], &types[i], found)?;
    }
    Ok(())
}

#[cycle(infer)]
fn infer_array<'a>(
    part: &'a TypeExpr,
    size: &'a Expr,
    ty: &DslxType,
    found: &mut Vec<Inference<'a>>,
) -> Result<(), AllocError>
    ensures { OnOk result (map inferred found.new.items ≡ map inferred found.old.items ++ from_array (inferred_in part.now) (the_name size.now) (out-DslxType ty.now)) }
{
    match ty {
        DslxType::Array(element, number) => {
            infer(part, element.get(), found)?;
            note(name_of(size), *number, found)
        }
        _ => Ok(()),
    }
}

/// The name that an expression is alone.
fn name_of(e: &Expr) -> Option<&Name>
    ensures { option_copied result ≡ the_name e.now }
{
    match &e.node {
        Node::Name(name) => Some(name),
        _ => None,
    }
}

/// Adds a number for a name, if there is one.
fn note<'a>(
    name: Option<&'a Name>,
    number: u128,
    found: &mut Vec<Inference<'a>>,
) -> Result<(), AllocError>
    ensures { OnOk result (map inferred found.new.items ≡ map inferred found.old.items ++ named_number (option_copied name.entry) number) }
{
    match name {
        Some(name) => {
            found.push(Inference { name, number })?;
            Ok(())
        }
        None => Ok(()),
    }
}
