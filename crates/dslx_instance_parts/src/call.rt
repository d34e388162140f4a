//! Calls, where the operands are lowered.

ghost use Rattle.std.specs.Prelude.{◌≡◌, ◌∷◌, [], List, Some, IfOk};
ghost use Rattle.dslx_meaning.specs.Callees.{kind_of_call};
ghost use Rattle.dslx_meaning.specs.Items.{all_parametric_args, inferred_from, meanings_of};
ghost use Rattle.dslx_meaning.specs.Lists.{and_then, where_true};
ghost use Rattle.dslx_core.specs.Lowering.Functions.{CoreInstance};
ghost use Rattle.dslx_core.specs.Lowering.Lowering.{types_of_lowered};
ghost use Rattle.dslx_core.specs.Machines.Machine.Parts.{calls_by_kind};
ghost use Rattle.dslx_instance_parts.specs.Inner.Calls.{function_called, the_instance};
ghost use Rattle.dslx_instance.specs.Tasks.Shown.{body_shown, instance_env_of};

use base::texts::Name;
use dslx_core::lowering::{Instantiated, LoweredExpr};
use dslx_core_exprs::aggregates::types_of;
use dslx_core_exprs::calls::lower_builtin;
use dslx_instance::tasks::{CallTask, OpenBody};
use dslx_meaning::DslxValue;
use dslx_meaning::names::{Callee, callee_of, find_function};
use dslx_scope_names::parametric_args::parametric_args_of;
use dslx_scope_names::scopes::constants_in_body;
use dslx_tree::{Arg, Function, Module};
use dslx_values::copy_name;
use std::alloc::{AllocError, Global};
use xb_value::Seq;

/// An instance of the text's function is to be called, or this is what a builtin is lowered to; whether there is such.
#[tactic(auto, using(crate::proofs::Calls::calls_are))]
pub(crate) fn begin_call<'a>(
    body: &mut OpenBody<'a>,
    alloc: Global,
    text: &'a Module,
    name: &'a Name,
    parametric_args: &'a [Arg],
    operands: Vec<LoweredExpr>,
) -> Result<bool, AllocError>
    ensures { IfOk result (λ is. (table : List CoreInstance) → where_true is (Some (body_shown body.new)) ≡ calls_by_kind (kind_of_call name.now) (instance_env_of text.now table) name.now parametric_args.now operands.items (body_shown body.old)) }
{
    match callee_of(name) {
        Callee::Function => begin_function(body, alloc, text, name, parametric_args, operands),
        callee => {
            let made = lower_builtin(alloc, callee, operands)?;
            body.give_if(made)
        }
    }
}

/// The parametric arguments that are written are constants.
fn begin_function<'a>(
    body: &mut OpenBody<'a>,
    alloc: Global,
    text: &'a Module,
    name: &'a Name,
    parametric_args: &'a [Arg],
    operands: Vec<LoweredExpr>,
) -> Result<bool, AllocError>
    ensures { IfOk result (λ is. (table : List CoreInstance) → where_true is (Some (body_shown body.new)) ≡ function_called (instance_env_of text.now table) name.now parametric_args.now operands.items (body_shown body.old)) }
{
    let given = constants_in_body(alloc, text, body, parametric_args)?;
    match given {
        Some(given) => match instance_called(alloc, text, name, given, operands.as_slice())? {
            Some(instance) => {
                body.first_call(alloc, CallTask::Call(instance, operands))?;
                Ok(true)
            }
            None => Ok(false),
        },
        None => Ok(false),
    }
}

/// The instance that a call with these parametric arguments and operands resolves to.
fn instance_called(
    alloc: Global,
    text: &Module,
    name: &Name,
    given: Vec<DslxValue>,
    operands: &[LoweredExpr],
) -> Result<Option<Instantiated>, AllocError>
    ensures { IfOk result (λ i. i ≡ the_instance text.now name.now given.items operands.now) }
{
    match find_function(text.items.as_slice(), name) {
        Some(function) => {
            let parametric_args = parametric_args_called(alloc, text, function, given, operands)?;
            instance_if(alloc, name, parametric_args)
        }
        None => Ok(None),
    }
}

/// All parametrics of a function, by those that are given and what the types of the operands infer.
fn parametric_args_called(
    alloc: Global,
    text: &Module,
    function: &Function,
    given: Vec<DslxValue>,
    operands: &[LoweredExpr],
) -> Result<Option<Seq<DslxValue>>, AllocError>
    ensures { IfOk result (λ vs. vs ≡ all_parametric_args (meanings_of text.now) (inferred_from function.now.arguments (types_of_lowered operands.now)) [] function.now.parametrics given.items) }
{
    let types = types_of(alloc, operands)?;
    parametric_args_of(alloc, text, function, types.as_slice(), given)
}

fn instance_if(
    alloc: Global,
    name: &Name,
    parametric_args: Option<Seq<DslxValue>>,
) -> Result<Option<Instantiated>, AllocError>
    ensures { IfOk result (λ i. i ≡ and_then parametric_args (λ parametric_args. Some (record { name = name.now; parametric_args = parametric_args }))) }
{
    match parametric_args {
        Some(parametric_args) => Ok(Some(Instantiated {
            name: copy_name(alloc, name)?,
            parametric_args,
        })),
        None => Ok(None),
    }
}
