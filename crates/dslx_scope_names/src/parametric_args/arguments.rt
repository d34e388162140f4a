//! The arguments of an instance.

ghost use Rattle.std.specs.Prelude.{◌≡◌, [], IfOk, length, map};
ghost use Rattle.std.specs.Option.{option_map};
ghost use Rattle.dslx_meaning.specs.Items.{meanings_of};
ghost use Rattle.dslx_meaning.specs.Lists.{all_some};
ghost use Rattle.dslx_core.specs.Lowering.Trees.{lower_type_of_text};
ghost use Rattle.dslx_core.specs.Machines.Machine.Callees.{CalleesByName};
ghost use Rattle.dslx_scope_names.specs.Values.Seen.{scope_with};
ghost use Rattle.dslx_scope_names.specs.Numbers.InScope.{arguments_of, arguments_shown, globals_with, locals_in_scope};

use crate::parametric_args::constant::is_constant;
use crate::values::{ScopeEnv, type_there};
use dslx_core::lowering::BoundSlot;
use dslx_meaning::DslxType;
use dslx_meaning::names::Binding;
use dslx_scope::locals::Locals;
use dslx_tree::{Field, Module};
use dslx_values::{copy_name, copy_type};
use std::alloc::{AllocError, Global};
use xb_value::Seq;

/// The arguments of an instance: their types, and the scope where they alone are bound.
#[derive(Drop)]
pub struct Arguments {
    pub types: Seq<DslxType>,
    pub locals: Locals,
    /// How many there are.
    pub count: u64,
}

/// The arguments of a function where its parametrics are bound, the last one last, whatever calls are lowered to there; `None` where
/// a type denotes nothing, and where an argument has a constant's name.
pub fn arguments_there<'a>(
    alloc: Global,
    text: &'a Module,
    parametric_args: &'a [Binding<'a>],
    arguments: &'a [Field],
) -> Result<Option<Arguments>, AllocError>
    ensures { IfOk result (λ found. (callee : CalleesByName) → arguments_shown callee text.now parametric_args.now found ≡ arguments_of (globals_with callee text.now parametric_args.now) arguments.now) }
{
    let locals = Locals::new(alloc);
    let context = ScopeEnv {
        text,
        parametric_args,
        locals: &locals,
    };
    match argument_types(alloc, context, arguments)? {
        Some(types) => scope_arguments(alloc, text, arguments, types),
        None => Ok(None),
    }
}

/// The types of all arguments.
fn argument_types<'a>(
    alloc: Global,
    context: ScopeEnv<'a>,
    arguments: &'a [Field],
) -> Result<Option<Seq<DslxType>>, AllocError>
    ensures { IfOk result (λ types. (callee : CalleesByName) → types ≡ all_some (map (λ f. lower_type_of_text f.ty (scope_with callee 0 context.entry)) arguments.now)) }
{
    let mut types = Vec::new(alloc);
    'arguments: for argument in arguments {
        match type_there(alloc, context, &argument.ty)? {
            Some(ty) => types.push(ty)?,
            None => return Ok(None),
        }
    }
    Ok(Some(Seq::from_vec(types)))
}

/// The arguments of these types in the scope where they alone are bound.
fn scope_arguments(
    alloc: Global,
    text: &Module,
    arguments: &[Field],
    types: Seq<DslxType>,
) -> Result<Option<Arguments>, AllocError>
    ensures { IfOk result (λ found. found ≡ option_map (λ locals. record { types = types; locals = locals; count = length arguments.now }) (locals_in_scope (meanings_of text.now) arguments.now types [] 0)) }
{
    match bind_arguments(alloc, text, arguments, types.as_slice())? {
        Some(locals) => Ok(Some(Arguments {
            types,
            locals,
            count: arguments.len() as u64,
        })),
        None => Ok(None),
    }
}

/// The names of the arguments, in order, none of which is a constant's.
fn bind_arguments(
    alloc: Global,
    text: &Module,
    arguments: &[Field],
    types: &[DslxType],
) -> Result<Option<Locals>, AllocError>
    ensures { IfOk result (λ locals. locals ≡ locals_in_scope (meanings_of text.now) arguments.now types.now [] 0) }
{
    if arguments.len() != types.len() {
        return Ok(None);
    }
    let mut locals = Locals::new(alloc);
    'arguments: for i in 0..arguments.len() {
        let name = &arguments[i].name.name;
        if is_constant(text, name) {
            return Ok(None);
        }
        locals.bind(BoundSlot {
            name: copy_name(alloc, name)?,
            slot: i as u64,
            ty: copy_type(alloc, &types[i])?,
        })?;
    }
    Ok(Some(locals))
}
