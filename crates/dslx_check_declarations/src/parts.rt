//! Parts of declarations that calls and spawns ask for.

ghost use Rattle.std.specs.Prelude.{◌≡◌, ◌<◌, ◌∷◌, ◌++◌, [], Some, IfOk, OnOk, reverse};
ghost use Rattle.dslx_meaning.specs.Rules.ModuleRules as the;
ghost use Rattle.dslx_check_facts.specs.Keys.{list_or_none};
ghost use Rattle.dslx_check_facts.specs.Walks.{shown};
ghost use Rattle.dslx_check_declarations.specs.Scopes.{BindsAll, declaring};

use crate::parametrics::bind_value;
use crate::spawns::lesser;
use dslx_check_facts::{Facts, TypeEnv, TypingThere, Walk};
use dslx_check_rules::Typing;
use dslx_meaning::DslxValue;
use dslx_tree::{Definition, Parametric};
use dslx_values::copy_value;
use std::alloc::{AllocError, Global};

/// The parametrics of a function or a proc; of another item none.
pub fn parametrics_of(definition: &Definition) -> &[Parametric]
    ensures { result.now ≡ the.parametrics_of (Some definition.now) }
{
    match definition {
        Definition::Function(function) => function.parametrics.as_slice(),
        Definition::Proc(process) => process.parametrics.as_slice(),
        _ => &[],
    }
}

/// The values of a prefix by its number, the last one first. It takes time as the prefix is long.
pub fn values_of(alloc: Global, w: &Walk, prefix: u32) -> Result<Vec<Option<DslxValue>>, AllocError>
    ensures { IfOk result (λ values. values.items ≡ list_or_none (shown w.now).prefixes prefix) }
{
    let mut values = Vec::new(alloc);
    let first = w.prefixes.none();
    let mut number = prefix;
    'values: while number != first {
        let before = push_last(alloc, w, number, &mut values)?;
        number = before;
    }
    Ok(values)
}

/// Adds the last value of a prefix, and gives the number of the one before it.
fn push_last(
    alloc: Global,
    w: &Walk,
    number: u32,
    values: &mut Vec<Option<DslxValue>>,
) -> Result<u32, AllocError>
    ensures { IfOk result (λ before. (before < number) × (values.new.items ++ list_or_none (shown w.now).prefixes before ≡ values.old.items ++ list_or_none (shown w.now).prefixes number)) }
{
    match w.prefixes.last(number) {
        None => Err(AllocError),
        Some(longer) => {
            let value = copy_if(alloc, &longer.last)?;
            values.push(value)?;
            Ok(longer.before)
        }
    }
}

fn copy_if(alloc: Global, value: &Option<DslxValue>) -> Result<Option<DslxValue>, AllocError>
    ensures { IfOk result (λ copy. copy ≡ value.now) }
{
    match value {
        None => Ok(None),
        Some(value) => {
            let own = copy_value(alloc, value)?;
            Ok(Some(own))
        }
    }
}

/// The type environment of an item's text behind parametrics of these values, of which the last one comes first, where the part may be
/// asked for by a call that rule 3 refuses.
pub fn behind_values<'a>(
    f: &Facts<'a>,
    w: &mut Walk,
    item: u32,
    is_declaring: bool,
    parametrics: &'a [Parametric],
    values: &[Option<DslxValue>],
) -> Result<TypeEnv<'a>, AllocError>
    ensures { IfOk result (λ s. BindsAll f.now (declaring item is_declaring) s (shown w.old) (shown w.new) parametrics.now (reverse values.now)) }
{
    let mut s = TypeEnv::new(f.alloc, item);
    s.is_declaring = is_declaring;
    let count = values.len();
    let both = lesser(count, parametrics.len());
    'values: for i in 0..both {
        bind_next(f, w, &mut s, &parametrics[i], &values[count - 1 - i])?;
    }
    Ok(s)
}

/// A parametric has this value from here on; one without a known value is unknown.
fn bind_next<'a>(
    f: &Facts,
    w: &mut Walk,
    s: &mut TypeEnv<'a>,
    parametric: &'a Parametric,
    value: &Option<DslxValue>,
) -> Result<(), AllocError>
    ensures { OnOk result (BindsAll f.now s.old s.new (shown w.old) (shown w.new) (parametric.now ∷ []) (value.now ∷ [])) }
{
    match value {
        None => s.unknown.bind(&parametric.name.name, ()),
        Some(value) => bind_value(f, w, s, parametric, value),
    }
}

/// The typing of a part, which reaches nothing so far.
pub fn there(alloc: Global, typing: Typing) -> TypingThere
    ensures { (result.ty ≡ typing.ty) × (result.faults ≡ typing.faults) × (result.reached.items ≡ []) }
{
    TypingThere {
        ty: typing.ty,
        faults: typing.faults,
        reached: Vec::new(alloc),
    }
}
