//! Parametrics that stand.

ghost use Rattle.std.specs.Prelude.{◌≡◌, ◌&&◌, not, IfOk, map, reverse};
ghost use Rattle.dslx_meaning.specs.Items.{meanings_of};
ghost use Rattle.dslx_meaning.specs.Values.{type_of_value as the_type};
ghost use Rattle.dslx_core.specs.Typing.Typed.Kinds.{is_of as the_value_is_of};
ghost use Rattle.dslx_core.specs.Lowering.Functions.{parametric_args_are_well_typed as all_stand};
ghost use Rattle.dslx_meaning.specs.Names.Bound.{given};

use crate::parametric_args::constant::is_constant;
use dslx_core_exprs::alike::is_of;
use dslx_meaning::names::Binding;
use dslx_tree::Module;
use dslx_values::type_of_value;
use std::alloc::{AllocError, Global};

/// Whether no parametric has a constant's name, and each value is of its own type.
pub fn parametric_args_are_well_typed(
    alloc: Global,
    text: &Module,
    parametric_args: &[Binding],
) -> Result<bool, AllocError>
    ensures { IfOk result (λ stand. stand ≡ all_stand (meanings_of text.now) (reverse (map given parametric_args.now))) }
{
    'parametric_args: for number in parametric_args {
        if !parametric_is_well_typed(alloc, text, number)? {
            return Ok(false);
        }
    }
    Ok(true)
}

fn parametric_is_well_typed(
    alloc: Global,
    text: &Module,
    number: &Binding,
) -> Result<bool, AllocError>
    ensures { IfOk result (λ stands. stands ≡ (not ((meanings_of text.now).is_constant number.now.name.now) && the_value_is_of (the_type number.now.value) number.now.value)) }
{
    if is_constant(text, number.name) {
        return Ok(false);
    }
    let ty = type_of_value(alloc, &number.value)?;
    Ok(is_of(&ty, &number.value))
}
