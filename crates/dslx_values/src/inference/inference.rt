//! What operands infer, and what is inferred for a name.

ghost use Rattle.std.specs.Prelude.{◌≡◌, IfOk, map};
ghost use Rattle.dslx_meaning.specs.Inference.{inferred_for as number_for};
ghost use Rattle.dslx_meaning.specs.Items.{inferred_from as all_inferred};
ghost use Rattle.dslx_values.specs.Inference.Inferences.{inferred};

use crate::inference::written::infer;
use base::texts::Name;
use dslx_meaning::DslxType;
use dslx_tree::Field;
use std::alloc::{AllocError, Global};

/// A name, and the number that the type of an operand has at its position.
#[derive(Drop)]
pub struct Inference<'a> {
    pub name: &'a Name,
    pub number: u128,
}

/// The first number that is inferred for a name.
pub fn inferred_for(name: &Name, inferences: &[Inference]) -> Option<u128>
    ensures { result ≡ number_for name.now (map inferred inferences.now) }
{
    'inferences: for inference in inferences {
        if *name == *inference.name {
            return Some(inference.number);
        }
    }
    None
}

/// What operands of these types infer, by the types that are written for them. It takes time as the written types are large.
pub fn inferred_from<'a>(
    alloc: Global,
    arguments: &'a [Field],
    types: &[DslxType],
) -> Result<Vec<Inference<'a>>, AllocError>
    ensures { IfOk result (λ found. map inferred found.items ≡ all_inferred arguments.now types.now) }
{
    let mut found = Vec::new(alloc);
    'arguments: for i in 0..arguments.len().min(types.len()) {
        infer(&arguments[i].ty, &types[i], &mut found)?;
    }
    Ok(found)
}
