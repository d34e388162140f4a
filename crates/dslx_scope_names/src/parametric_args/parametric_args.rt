//! The parametrics of a call.

ghost use Rattle.std.specs.Prelude.{◌≡◌, [], IfOk, map};
ghost use Rattle.dslx_meaning.specs.Items.{all_parametric_args as parametric_args_of_all, inferred_from as all_inferred, meanings_of};
ghost use Rattle.dslx_values.specs.Inference.Inferences.{inferred};

use crate::parametric_args::bound::scope_of;
use crate::parametric_args::number::find_number;
use dslx_meaning::{DslxType, DslxValue};
use dslx_tree::{Function, Module, Parametric};
use dslx_values::inference::{Inference, inferred_from};
use std::alloc::{AllocError, Global};
use xb_value::Seq;

/// The parametrics of a function, from those that are given and from what operands of these types infer; `None` where one
/// of them has no value, and where more are given than there are. For each that isn't given, the values of those before it are
/// copied.
pub fn parametric_args_of<'a>(
    alloc: Global,
    text: &'a Module,
    function: &'a Function,
    types: &[DslxType],
    given: Vec<DslxValue>,
) -> Result<Option<Seq<DslxValue>>, AllocError>
    ensures { IfOk result (λ parametric_args. parametric_args ≡ parametric_args_of_all (meanings_of text.now) (all_inferred function.now.arguments types.now) [] function.now.parametrics given.items) }
{
    let inferences = inferred_from(alloc, function.arguments.as_slice(), types)?;
    complete(
        alloc,
        text,
        function.parametrics.as_slice(),
        inferences.as_slice(),
        given,
    )
}

/// The values of all these parametrics, from those that are given; `None` as for a call's. There are no operands that infer any.
pub fn all_parametric_args<'a>(
    alloc: Global,
    text: &'a Module,
    parametrics: &'a [Parametric],
    given: Vec<DslxValue>,
) -> Result<Option<Seq<DslxValue>>, AllocError>
    ensures { IfOk result (λ parametric_args. parametric_args ≡ parametric_args_of_all (meanings_of text.now) [] [] parametrics.now given.items) }
{
    let inferences = Vec::new(alloc);
    complete(alloc, text, parametrics, inferences.as_slice(), given)
}

/// The values that are given, and behind them those of the parametrics that are left.
fn complete<'a>(
    alloc: Global,
    text: &'a Module,
    parametrics: &'a [Parametric],
    inferences: &[Inference],
    mut parametric_args: Vec<DslxValue>,
) -> Result<Option<Seq<DslxValue>>, AllocError>
    ensures { IfOk result (λ all. all ≡ parametric_args_of_all (meanings_of text.now) (map inferred inferences.now) [] parametrics.now parametric_args.items) }
{
    if parametrics.len() < parametric_args.len() {
        return Ok(None);
    }
    'parametrics: for i in parametric_args.len()..parametrics.len() {
        let bound = scope_of(alloc, parametrics, parametric_args.as_slice())?;
        match find_number(alloc, text, bound, &parametrics[i], inferences)? {
            Some(number) => parametric_args.push(number)?,
            None => return Ok(None),
        }
    }
    Ok(Some(Seq::from_vec(parametric_args)))
}
