//! Calls of functions.

ghost use Rattle.std.specs.Prelude.{◌≡◌, ◌==◌, ◌&&◌, [], List, None, IfOk, length, nat_lt, not, if◌then◌else◌};
ghost use Rattle.std.specs.Option.{option_copied};
ghost use Rattle.base.specs.Lists.Prefix.{IsPrefix};
ghost use Rattle.xb_span.specs.declared.fault.Fault.{Fault};
ghost use Rattle.dslx_meaning.specs.Rules.CallRules as the;
ghost use Rattle.dslx_check_rules.specs.Interned.{ItemNames};
ghost use Rattle.dslx_check_rules.specs.Seen.{seen};
ghost use Rattle.dslx_check_rules.specs.declared.table.row.TypeRow.{TypeRow as Row};
ghost use Rattle.dslx_check_rules.specs.Nodes.Parts.{ArePlaced, IsPart, Placed, judgements};
ghost use Rattle.dslx_check_rules.specs.Control.Calls.{AreGiven, undeclared_call_of};
ghost use Rattle.dslx_check_facts.specs.Known.{item_names};
ghost use Rattle.dslx_check_facts.specs.Walks.{shown};
ghost use Rattle.dslx_check_uses.specs.Inner.Calls as seen_by;
ghost use Rattle.dslx_check_uses.specs.Called.{CallFrom, call_by_parts};

use crate::infer_all;
use crate::parametrics::{CalledItem, ParametricArgs, parametric_args};
use dslx_check_facts::{
    Facts, InstanceKey, SignatureThere, TypeEnv, Walk, callee_size, signature_seen,
};
use dslx_check_rules::control::calls::{self, CalleeParts, ParametricArgument};
use dslx_check_rules::nodes::lists::faults_of_all;
use dslx_check_rules::nodes::{Spanned, both};
use dslx_check_rules::{Faults, TypeId, TypeTable, Typing, rule};
use dslx_meaning::DslxValue;
use dslx_tree::{Function, Ident};
use std::alloc::AllocError;
use xb_span::Span;
use xb_value::Seq;

/// A call of a function from its parametric arguments and its operands.
pub fn call_of<'a>(
    f: &Facts<'a>,
    w: &mut Walk,
    s: &TypeEnv<'a>,
    span: Span,
    name: &Ident,
    given: &[ParametricArgument],
    operands: &[Spanned],
) -> Result<Typing, AllocError>
    ensures { IfOk result (λ j. CallFrom f.now s.now (shown w.old) (shown w.new) given.now operands.now j (call_by_parts span name.now)) }
{
    match f.function(&name.name) {
        None => Ok(undeclared_call(&w.types, span, name.span, given, operands)),
        Some((item, function)) => {
            let is_cyclic = f.is_cyclic(s.owner, item);
            let is_hidden = both(s.is_declaring, is_cyclic);
            let callee = CalledItem {
                item,
                is_cyclic,
                is_hidden,
            };
            let is_right = has_right_count(function, given, operands);
            if is_right {
                right_call(f, w, span, callee, function, given, operands)
            } else {
                let cyclic = Faults::breaks_if(is_cyclic, rule::NO_ITEM_REACHES_ITSELF, span);
                Ok(refused_call(&w.types, span, given, operands, cyclic))
            }
        }
    }
}

/// A call of something that isn't declared.
fn undeclared_call(
    types: &TypeTable,
    span: Span,
    name: Span,
    given: &[ParametricArgument],
    operands: &[Spanned],
) -> Typing
    ensures { (names : ItemNames) (later : List Row) (gs : List the.ParametricArgument) (xs : List Placed) → IsPrefix types.now later → AreGiven names types.now later given.now gs
        → ArePlaced names types.now later operands.now xs
        → IsPart names types.now later result (undeclared_call_of span name (the.call_parts_faults gs (judgements xs)) (the.call_parts_reached gs (judgements xs))) }
{
    let parts = calls::given_faults(given).and(faults_of_all(operands));
    calls::undeclared_call_typing(types, span, name, parts)
}

/// A call with another number of arguments than is declared, which breaks these too.
pub fn refused_call(
    types: &TypeTable,
    span: Span,
    given: &[ParametricArgument],
    operands: &[Spanned],
    more: Faults,
) -> Typing
    ensures { (names : ItemNames) (later : List Row) (gs : List the.ParametricArgument) (xs : List Placed) (ms : List Fault) → IsPrefix types.now later → AreGiven names types.now later given.now gs
        → ArePlaced names types.now later operands.now xs → more ≡ seen ms → IsPart names types.now later result (the.wrong_call span gs (judgements xs) ms) }
{
    let parts = calls::given_faults(given).and(faults_of_all(operands));
    calls::wrong_call_typing(types, span, parts, more)
}

/// As many operands as arguments, and not more parametric arguments than parametrics.
fn has_right_count(function: &Function, given: &[ParametricArgument], operands: &[Spanned]) -> bool
    ensures { result ≡ (length operands.now == length function.now.arguments && not (nat_lt (length function.now.parametrics) (length given.now))) }
{
    operands.len() == function.arguments.len() && given.len() <= function.parametrics.len()
}

/// A call with as many operands as arguments, and not more parametric arguments than parametrics.
fn right_call(
    f: &Facts,
    w: &mut Walk,
    span: Span,
    callee: CalledItem,
    function: &Function,
    given: &[ParametricArgument],
    operands: &[Spanned],
) -> Result<Typing, AllocError>
    ensures { IfOk result (λ j. seen_by.RightFrom f.now callee (shown w.old) (shown w.new) span function.now given.now operands.now j) }
{
    let args = call_args(f, w, callee, function, given, operands)?;
    let size = reach_callee(f, w, callee, &args)?;
    let signature = callee_signature(f, w, callee, &args)?;
    let parts = callee_parts(callee, &args, signature, size);
    let faults = calls::given_faults(given);
    Ok(calls::right_call_typing(&w.types, span, faults, operands, &parts))
}

/// The parametrics of a call.
fn call_args(
    f: &Facts,
    w: &mut Walk,
    callee: CalledItem,
    function: &Function,
    given: &[ParametricArgument],
    operands: &[Spanned],
) -> Result<ParametricArgs, AllocError>
    ensures { IfOk result (λ args. seen_by.CallArgs f.now callee (shown w.old) (shown w.new) function.now given.now operands.now args) }
{
    let types = calls::types_of(f.alloc, operands)?;
    let found = infer_all(
        f.alloc,
        &w.types,
        function.arguments.as_slice(),
        types.as_slice(),
    )?;
    let parametrics = function.parametrics.as_slice();
    let args = parametric_args(f, w, callee, parametrics, given, &found)?;
    Ok(args)
}

/// Notes what a call reaches, unless it is refused, and gives the size of the callee's body.
fn reach_callee(
    f: &Facts,
    w: &mut Walk,
    callee: CalledItem,
    args: &ParametricArgs,
) -> Result<Option<u32>, AllocError>
    ensures { IfOk result (λ size. seen_by.ReachesCallee f.now callee (shown w.old) (shown w.new) args.now size) }
{
    let is_cyclic = callee.is_cyclic;
    if is_cyclic {
        return Ok(None);
    }
    let is_wrong = args.is_wrong;
    if is_wrong {
        return Ok(None);
    }
    w.reach_all(args.reached.as_slice())?;
    let all = args.all_values(f)?;
    match all {
        None => Ok(None),
        Some(values) => reach_instance(f, w, callee.item, values),
    }
}

/// Meets an instance and notes that it is reached, and gives the size of its body.
fn reach_instance(
    f: &Facts,
    w: &mut Walk,
    item: u32,
    parametric_args: Seq<DslxValue>,
) -> Result<Option<u32>, AllocError>
    ensures { IfOk result (λ size. seen_by.ReachesOne f.now (shown w.old) (shown w.new) (record { name = (item_names f.now).item item; parametric_args = parametric_args }) size) }
{
    let key = InstanceKey {
        item,
        parametric_args,
    };
    let instance = w.instances.number_of(key)?;
    w.reach(instance)?;
    let size = callee_size(f, w, instance)?;
    Ok(size)
}

/// The callee's signature, unless rule 10 is broken or something is missing.
fn callee_signature<'f>(
    f: &'f Facts,
    w: &mut Walk,
    callee: CalledItem,
    args: &ParametricArgs,
) -> Result<Option<&'f SignatureThere>, AllocError>
    ensures { IfOk result (λ signature. seen_by.SignatureFrom f.now callee (shown w.old) (shown w.new) args.now (option_copied signature)) }
{
    let is_hidden = callee.is_hidden;
    if is_hidden {
        return Ok(None);
    }
    let is_wrong = args.is_wrong;
    if is_wrong {
        return Ok(None);
    }
    let is_whole = args.is_whole;
    if !is_whole {
        return Ok(None);
    }
    let signature = signature_seen(f, w, callee.item, args.prefix, callee.is_cyclic)?;
    Ok(signature)
}

/// What is known of the callee.
fn callee_parts<'p>(
    callee: CalledItem,
    args: &ParametricArgs,
    signature: Option<&'p SignatureThere>,
    size: Option<u32>,
) -> CalleeParts<'p>
    ensures { seen_by.ArePartsOf callee args.now (option_copied signature.entry) size result }
{
    CalleeParts {
        is_cyclic: callee.is_cyclic,
        is_wrong: args.is_wrong,
        parametrics: args.faults,
        declared: declared_there(callee, args),
        arguments: arguments_of(signature),
        result: result_of(args, signature),
        size,
    }
}

/// What is found in the other declaration, unless rule 3 is broken.
fn declared_there(callee: CalledItem, args: &ParametricArgs) -> Faults
    ensures { result ≡ (if callee.is_cyclic then seen [] else args.now.declared) }
{
    if callee.is_cyclic {
        Faults::none()
    } else {
        args.declared
    }
}

fn arguments_of<'p>(signature: Option<&'p SignatureThere>) -> &'p [Option<TypeId>]
    ensures { result.now ≡ seen_by.arguments_of (option_copied signature.entry) }
{
    match signature {
        Some(signature) => signature.arguments.as_slice(),
        None => &[],
    }
}

/// The result's type, where all parametrics are known.
fn result_of(args: &ParametricArgs, signature: Option<&SignatureThere>) -> Option<TypeId>
    ensures { result ≡ (if args.now.are_known then seen_by.result_of (option_copied signature.entry) else None) }
{
    match signature {
        Some(signature) => if args.are_known {
            signature.result
        } else {
            None
        },
        None => None,
    }
}
