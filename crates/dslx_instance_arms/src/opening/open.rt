//! An instance whose body is to be lowered.

ghost use Rattle.std.specs.Prelude.{◌≡◌, ◌∷◌, [], List, IfOk, map, reverse};
ghost use Rattle.std.specs.Option.{option_map};
ghost use Rattle.dslx_core.specs.Lowering.Functions.{CoreInstance};
ghost use Rattle.dslx_meaning.specs.Names.Bound.{given};
ghost use Rattle.dslx_core.specs.Machines.Machine.Tasks.{LowersBlock};
ghost use Rattle.dslx_core.specs.Machines.Machine.Machines.{function_open, instance_open, globals_of};
ghost use Rattle.dslx_instance.specs.Tasks.Shown.{instance_shown, instance_env_of};

use base::stacks::Stack;
use dslx_core::lowering::Instantiated;
use dslx_instance::tasks::{BlockTask, LowerTask, OpenBody, OpenInstance};
use dslx_meaning::names::{Binding, find_function};
use dslx_scope_names::parametric_args::{
    Arguments, arguments_there, bindings_of, parametric_args_are_well_typed,
};
use dslx_tree::{Function, Module};
use std::alloc::{AllocError, Global};

/// An instance with its arguments bound, whose body is to be lowered; `None` where the text has no such function, or its
/// parametrics or arguments aren't well-typed.
pub fn open_instance<'a>(
    alloc: Global,
    text: &'a Module,
    instance: Instantiated,
) -> Result<Option<OpenInstance<'a>>, AllocError>
    ensures { IfOk result (λ o. (table : List CoreInstance) → option_map instance_shown o ≡ instance_open (instance_env_of text.now table) instance) }
{
    match find_function(text.items.as_slice(), &instance.name) {
        Some(function) => open_function(alloc, text, function, instance),
        None => Ok(None),
    }
}

#[tactic(auto, using(crate::proofs::OnOpening::Opening::opens_none, crate::proofs::OnOpening::Opening::opens_with))]
fn open_function<'a>(
    alloc: Global,
    text: &'a Module,
    function: &'a Function,
    instance: Instantiated,
) -> Result<Option<OpenInstance<'a>>, AllocError>
    ensures { IfOk result (λ o. (table : List CoreInstance) → option_map instance_shown o ≡ function_open (globals_of (instance_env_of text.now table) function.now instance) function.now instance) }
{
    let parametric_args = bindings_of(
        alloc,
        function.parametrics.as_slice(),
        instance.parametric_args.as_slice(),
    )?;
    if !parametric_args_are_well_typed(alloc, text, parametric_args.as_slice())? {
        return Ok(None);
    }
    let arguments = arguments_there(
        alloc,
        text,
        parametric_args.as_slice(),
        function.arguments.as_slice(),
    )?;
    match arguments {
        Some(arguments) => {
            let opened = opened(alloc, function, instance, parametric_args, arguments)?;
            Ok(Some(opened))
        }
        None => Ok(None),
    }
}

/// The body is all that is to be done.
fn opened<'a>(
    alloc: Global,
    function: &'a Function,
    instance: Instantiated,
    parametric_args: Vec<Binding<'a>>,
    arguments: Arguments,
) -> Result<OpenInstance<'a>, AllocError>
    ensures { IfOk result (λ o. instance_shown o ≡ record { instance = instance; arguments = arguments.types; body = record { given = reverse (map given parametric_args.entry.items); todo = LowersBlock function.now.body ∷ []; made = []; locals = arguments.locals; count = arguments.count } }) }
{
    let mut todo = Stack::new(alloc);
    todo.push(LowerTask::block(alloc, BlockTask::Block(&function.body))?)?;
    Ok(OpenInstance {
        instance,
        arguments: arguments.types,
        body: OpenBody {
            given: parametric_args,
            todo,
            made: Stack::new(alloc),
            locals: arguments.locals,
            count: arguments.count,
        },
    })
}
