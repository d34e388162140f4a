//! The `next` of an instance of a proc.

ghost use Rattle.std.specs.Prelude.{◌≡◌, ◌∷◌, ◌&&◌, [], not, map, reverse, Some, IfOk};
ghost use Rattle.dslx_core.specs.Machines.Machine.Callees.{CalleesByName};
ghost use Rattle.dslx_core.specs.Machines.Machine.Reached.{IsTable};
ghost use Rattle.dslx_core.specs.Lowering.Functions.{parametric_args_are_well_typed as all_stand, outer_scope};
ghost use Rattle.dslx_core.specs.Lowering.Steps.{is_sized as has_elements, lower_next, steps_from};
ghost use Rattle.dslx_core.specs.Lowering.Trees.{lower_type_of_text};
ghost use Rattle.dslx_meaning.specs.Items.{meanings_of};
ghost use Rattle.dslx_meaning.specs.Lists.{and_then, where_true};
ghost use Rattle.dslx_meaning.specs.Names.Bound.{given};
ghost use Rattle.dslx_scope_names.specs.Patterns.Behind.{body_scope};
ghost use Rattle.dslx_param.specs.Needed.{TableMakes};
ghost use Rattle.dslx_next.specs.Opening.Works.{parametric_args_known};

use crate::opening::{NextScope, outer_type};
use crate::steps::body::lower_body;
use base::texts::Name;
use dslx_core::lowering::{BoundSlot, LoweredNext};
use dslx_core_exprs::alike::{equal_type, is_sized};
use dslx_instance::table::InstanceTable;
use dslx_instance::tasks::BodyWork;
use dslx_meaning::DslxType;
use dslx_meaning::names::Binding;
use dslx_scope::locals::Locals;
use dslx_scope_names::names::is_constant_named;
use dslx_scope_names::parametric_args::parametric_args_are_well_typed;
use dslx_scope_names::patterns::BodyScope;
use dslx_tree::{Module, Proc, TypeExpr};
use dslx_values::{copy_name, copy_type};
use std::alloc::{AllocError, Global};

/// What the `next` of a proc is lowered to where these parametrics are bound, the last one last, with the instances of functions that
/// it needs, and no others, behind those that are made; `None` only where it has no lowering by any table of at most `limit` instances.
pub fn next_there<'a>(
    alloc: Global,
    text: &'a Module,
    limit: usize,
    table: InstanceTable,
    proc: &'a Proc,
    parametric_args: Vec<Binding<'a>>,
) -> Result<Option<(LoweredNext, InstanceTable)>, AllocError>
    requires is_table { IsTable text.now (meanings_of text.now) table }
    ensures { IfOk result (λ o. TableMakes text.now limit table (λ instances. lower_next (parametric_args_known text.now parametric_args.entry.items instances) proc.now) o) }
{
    if !names_are_well_typed(
        alloc,
        text,
        parametric_args.as_slice(),
        &proc.next.state.name,
    )? {
        return Ok(None);
    }
    let known = BodyScope {
        text,
        parametric_args: parametric_args.as_slice(),
    };
    match state_type(alloc, known, &proc.next.ty)? {
        Some(state) => next_from(alloc, text, limit, table, proc, parametric_args, state),
        None => Ok(None),
    }
}

/// Whether the parametrics are well-typed, and the state has no constant's name.
fn names_are_well_typed(
    alloc: Global,
    text: &Module,
    parametric_args: &[Binding],
    state: &Name,
) -> Result<bool, AllocError>
    ensures { IfOk result (λ stand. stand ≡ (all_stand (meanings_of text.now) (reverse (map given parametric_args.now)) && not ((meanings_of text.now).is_constant state.now))) }
{
    Ok(
        parametric_args_are_well_typed(alloc, text, parametric_args)?
            && !is_constant_named(text, state),
    )
}

/// The type of the state, if each array in it has an element.
fn state_type<'a>(
    alloc: Global,
    known: BodyScope<'a>,
    ty: &'a TypeExpr,
) -> Result<Option<DslxType>, AllocError>
    ensures { IfOk result (λ t. (callee : CalleesByName) → t ≡ and_then (lower_type_of_text ty.now (body_scope callee known.entry [] 0)) (λ t. where_true (has_elements t) (Some t))) }
{
    match outer_type(alloc, known, ty)? {
        Some(ty) => if is_sized(&ty) {
            Ok(Some(ty))
        } else {
            Ok(None)
        },
        None => Ok(None),
    }
}

/// What the `next` is lowered to where its state is of this type.
fn next_from<'a>(
    alloc: Global,
    text: &'a Module,
    limit: usize,
    table: InstanceTable,
    proc: &'a Proc,
    parametric_args: Vec<Binding<'a>>,
    state: DslxType,
) -> Result<Option<(LoweredNext, InstanceTable)>, AllocError>
    requires is_table { IsTable text.now (meanings_of text.now) table }
    ensures { IfOk result (λ o. TableMakes text.now limit table (λ instances. steps_from (outer_scope (parametric_args_known text.now parametric_args.entry.items instances)) proc.now state) o) }
{
    let known = NextScope {
        text,
        limit,
        ends: proc.members.as_slice(),
    };
    let work = BodyWork {
        table,
        given: parametric_args,
        locals: state_alone(alloc, &proc.next.state.name, &state)?,
        count: 1,
    };
    match lower_body(alloc, known, work, &proc.next.body)? {
        Some((lowered, table)) => if equal_type(&state, &lowered.next.ty) {
            let next = LoweredNext {
                state,
                steps: lowered.steps,
                next: lowered.next.core.into_inner(),
            };
            Ok(Some((next, table)))
        } else {
            Ok(None)
        },
        None => Ok(None),
    }
}

/// The state is the first value that is bound.
fn state_alone(alloc: Global, name: &Name, ty: &DslxType) -> Result<Locals, AllocError>
    ensures { IfOk result (λ locals. locals ≡ record { name = name.now; slot = 0; ty = ty.now } ∷ []) }
{
    let mut locals = Locals::new(alloc);
    locals.bind(BoundSlot {
        name: copy_name(alloc, name)?,
        slot: 0,
        ty: copy_type(alloc, ty)?,
    })?;
    Ok(locals)
}
