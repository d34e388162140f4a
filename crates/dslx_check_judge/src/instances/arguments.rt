//! Arguments of functions.

ghost use Rattle.std.specs.Prelude.{◌≡◌, [], Some, IfOk, OnOk, slice_get};
ghost use Rattle.dslx_meaning.specs.Rules.ItemRules as the;
ghost use Rattle.dslx_check_facts.specs.Walks.{shown};
ghost use Rattle.dslx_check_leaves.specs.Walked.{WalksTo};
ghost use Rattle.dslx_check_judge.specs.Items.Lists.{IsTypeAs, TypesList, inner_types_of};
ghost use Rattle.dslx_check_judge.specs.Instances.Inner.Arguments.{bound_behind};

use dslx_check_declarations::NamesBefore;
use dslx_check_facts::{Facts, TypeEnv, Walk, local_name};
use dslx_check_parts::inner_type;
use dslx_check_rules::{Faults, TypeId};
use dslx_tree::Field;
use std::alloc::AllocError;

/// All arguments: their faults, and the type of each.
#[derive(Drop)]
pub(crate) struct ArgumentsSeen {
    pub(crate) faults: Faults,
    pub(crate) types: Vec<Option<TypeId>>,
}

/// The arguments of a function.
pub(crate) fn arguments_seen<'a>(
    f: &Facts<'a>,
    w: &mut Walk,
    s: &mut TypeEnv<'a>,
    arguments: &'a [Field],
) -> Result<ArgumentsSeen, AllocError>
    ensures { IfOk result (λ r. WalksTo f.now s.old s.new (shown w.old) (shown w.new)
        (TypesList IsTypeAs r.faults r.types.items (λ context. the.arguments_found context [] arguments.now) (λ context. inner_types_of context arguments.now))) }
{
    let mut before = NamesBefore::new(f.alloc);
    let mut faults = Faults::none();
    let mut types = Vec::new(f.alloc);
    'arguments: for i in 0..arguments.len() {
        let argument = &arguments[i];
        let is_before = before.has(&argument.name.name);
        let named = local_name(f, is_before, &argument.name);
        let own = inner_type(f, w, s, &argument.ty)?;
        let one = named.and(own.faults);
        faults = faults.and(one);
        types.push(own.ty)?;
        before.put(&argument.name.name)?;
    }
    Ok(ArgumentsSeen { faults, types })
}

/// The arguments are in scope from here on, with these types.
pub(crate) fn bind_arguments<'a>(
    s: &mut TypeEnv<'a>,
    arguments: &'a [Field],
    types: &[Option<TypeId>],
) -> Result<(), AllocError>
    ensures { OnOk result (s.new ≡ record s.old { locals = bound_behind s.old.locals arguments.now types.now }) }
{
    if types.len() < arguments.len() {
        return Err(AllocError);
    }
    'arguments: for i in 0..arguments.len() {
        let ty = type_at(types, i)?;
        s.locals.bind(&arguments[i].name.name, ty)?;
    }
    Ok(())
}

fn type_at(types: &[Option<TypeId>], at: usize) -> Result<Option<TypeId>, AllocError>
    ensures { IfOk result (λ ty. slice_get types.now at ≡ Some ty) }
{
    match types.get(at) {
        Some(ty) => Ok(*ty),
        None => Err(AllocError),
    }
}
