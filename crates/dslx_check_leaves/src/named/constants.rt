//! Constants.

ghost use Rattle.std.specs.Prelude.{◌≡◌, ◌&&◌, ◌==◌, ℕ, List, [], Option, None, Some, IfOk, OnOk, if◌then◌else◌, is_some, length, map, not, reverse, slice_get, true};
ghost use Rattle.std.specs.List.{list_all};
ghost use Rattle.xb_span.specs.declared.fault.Fault.{Fault};
ghost use Rattle.dslx_meaning.specs.Rules.ConstantRules as the;
ghost use Rattle.dslx_meaning.specs.Rules.Mentions.{free_names};
ghost use Rattle.dslx_meaning.specs.Rules.TypeEnvs.{GlobalEnv, Judgement, alone as alone_as};
ghost use Rattle.dslx_check_rules.specs.Interned.{ItemNames};
ghost use Rattle.dslx_check_rules.specs.Seen.{capped, seen};
ghost use Rattle.dslx_check_rules.specs.declared.table.row.TypeRow.{TypeRow};
ghost use Rattle.dslx_check_rules.specs.Nodes.Parts.{IsConstant};
ghost use Rattle.dslx_check_facts.specs.Bound.{bound_names};
ghost use Rattle.dslx_check_facts.specs.TypeEnvs.{given_of};
ghost use Rattle.dslx_check_facts.specs.Walks.{OnlyMisses, shown};
ghost use Rattle.dslx_check_facts.specs.declared.type_env.ParametricArg.{ParametricArg as ArgShown};
ghost use Rattle.dslx_check_leaves.specs.Named.Constants.{ConstantFrom, IsKeptValue, IsKeptValueIf, args_in_scope, expr_typed, if_valued, is_local_name, some_local, unless_hidden, untyped_found, kept_value};

use base::texts::Name;
use dslx_check_facts::{Facts, ParametricArg, Reached, TypeEnv, Walk, ask_settled, reached_since};
use dslx_check_rules::nodes::ConstantTyping;
use dslx_check_rules::{Faults, MOST_NODES, Typing, rule};
use dslx_const::const_eval_over;
use dslx_meaning::names::{Binding, Scope};
use dslx_meaning::{DslxValue, UntypedLiteral};
use dslx_scope::free_names::names_free_in;
use dslx_tree::Expr;
use dslx_values::copy_value;
use std::alloc::AllocError;
use xb_span::What;

/// A number without a type as a constant.
pub fn untyped_constant(number: UntypedLiteral) -> ConstantTyping
    ensures { (names : ItemNames) (rows later : List TypeRow) → IsConstant names rows later result (untyped_found number) }
{
    ConstantTyping {
        typing: Typing {
            ty: None,
            faults: Faults::none(),
            size: Some(1),
        },
        untyped: Some(number),
        value: None,
    }
}

/// A constant from what its expression comes to, which reaches what was reached from this place on. It is evaluated only where nothing
/// that it asked for is missing: there were so many needs before it.
#[tactic(auto, using(crate::proofs::OnNamed::OnConstants::constant_found))]
pub fn constant_typing<'a>(
    f: &Facts<'a>,
    w: &mut Walk,
    s: &TypeEnv<'a>,
    from: usize,
    missing: usize,
    e: &'a Expr,
    inner: Typing,
) -> Result<ConstantTyping, AllocError>
    ensures { IfOk result (λ c. ConstantFrom f.now s.now (shown w.old) (shown w.new) from missing inner
        (λ context. alone_as context (expr_typed e.now)) (λ context. the.constant_of context (expr_typed e.now)) c) }
{
    let hidden = names_a_local(f, s, e)?;
    let own = Faults::breaks_if(hidden, rule::CONSTANT_HAS_NO_LOCALS, e.span);
    let reached = reached_since(f, w, from)?;
    let typing = inner.with(own);
    let typing = size_limited(reached, e.span.to, typing);
    let is_new = nothing_missed(w, missing);
    let evaluates = may_evaluate(typing, reached, is_new);
    let value = value_if(f, w, s, e, evaluates)?;
    Ok(with_value(typing, value))
}

/// The limit on the size of a constant, where no rule is broken and none is reached that is.
#[tactic(auto, using(crate::proofs::OnNamed::OnConstants::limit_passed))]
pub fn size_limited(reached: Reached, end: u32, typing: Typing) -> Typing
    ensures ty { result.ty ≡ typing.ty }
    ensures size { result.size ≡ typing.size }
    ensures faults { (known : GlobalEnv) (j : Judgement) → typing.faults ≡ seen j.faults → typing.size ≡ capped j.size
        → reached.unbroken ≡ list_all known.is_unbroken j.reached → result.faults ≡ seen (the.with_size_limit known end j).faults }
{
    let may_pass = is_unbroken(typing, reached);
    typing.with(size_faults(may_pass, end, typing.size))
}

/// No rule is broken, and none is reached that is.
fn is_unbroken(typing: Typing, reached: Reached) -> bool
    ensures { result ≡ (not typing.faults.broken && reached.unbroken) }
{
    !typing.faults.broken && reached.unbroken
}

fn size_faults(may_pass: bool, end: u32, size: Option<u32>) -> Faults
    ensures { (n : Option ℕ) → size ≡ capped n → result ≡ seen (if may_pass then the.over_size end n else []) }
{
    if may_pass {
        over_size(end, size)
    } else {
        Faults::none()
    }
}

#[tactic(auto, using(crate::proofs::OnNamed::OnConstants::none_over, crate::proofs::OnNamed::OnConstants::some_over))]
fn over_size(end: u32, size: Option<u32>) -> Faults
    ensures { (n : Option ℕ) → size ≡ capped n → result ≡ seen (the.over_size end n) }
{
    match size {
        None => Faults::none(),
        Some(size) => {
            Faults::passes_count(What::Size, u64::from(MOST_NODES), end, u64::from(size))
        }
    }
}

/// Whether as much is missing as was before.
fn nothing_missed(w: &Walk, missing: usize) -> bool
    ensures { result ≡ (length (shown w.now).missing == missing) }
{
    w.missing.len() == missing
}

/// Whether nothing stands against evaluating it.
fn may_evaluate(typing: Typing, reached: Reached, is_new: bool) -> bool
    ensures { (fs : List Fault) → typing.faults ≡ seen fs
        → result ≡ (((the.is_empty fs && reached.sound) && (is_some typing.ty && is_some typing.size)) && is_new) }
{
    let is_empty = typing.faults.is_empty();
    all_hold(is_empty, reached.sound, is_whole(typing), is_new)
}

fn all_hold(a: bool, b: bool, c: bool, d: bool) -> bool
    ensures { result ≡ (((a && b) && c) && d) }
{
    a && b && c && d
}

/// It has a type and a size.
fn is_whole(typing: Typing) -> bool
    ensures { result ≡ (is_some typing.ty && is_some typing.size) }
{
    typing.ty.is_some() && typing.size.is_some()
}

/// Without a value it has no type, and no size.
fn with_value(typing: Typing, value: Option<DslxValue>) -> ConstantTyping
    ensures { result ≡ record { typing = if_valued (is_some value) typing; untyped = None; value = value } }
{
    let typing = typing_if(value.is_some(), typing);
    ConstantTyping {
        typing,
        untyped: None,
        value,
    }
}

fn typing_if(has_value: bool, typing: Typing) -> Typing
    ensures { result ≡ if_valued has_value typing }
{
    if has_value {
        typing
    } else {
        Typing {
            ty: None,
            faults: typing.faults,
            size: None,
        }
    }
}

/// Whether some name that is free in it is bound around it. Members are local bindings, too, but hide no parametric.
fn names_a_local<'a>(f: &Facts<'a>, s: &TypeEnv<'a>, e: &'a Expr) -> Result<bool, AllocError>
    ensures { IfOk result (λ b. b ≡ some_local s.now (free_names e.now)) }
{
    let names = names_free_in(f.alloc, e)?;
    Ok(is_one_local(s, names.as_slice()))
}

#[tactic(auto, using(crate::proofs::OnNamed::OnConstants::any_here, crate::proofs::OnNamed::OnConstants::any_next, crate::proofs::OnNamed::OnConstants::any_none))]
fn is_one_local<'a>(s: &TypeEnv<'a>, names: &[&'a Name]) -> bool
    ensures { result ≡ some_local s.now (map {B = List ℕ} (λ name. name.now) names.now) }
{
    'names: for name in names {
        if is_local(s, name) {
            return true;
        }
    }
    false
}

fn is_local(s: &TypeEnv, name: &Name) -> bool
    ensures { result ≡ is_local_name s.now name.now }
{
    s.locals.has(name) || s.members.has(name) && !s.parametric_args.has(name)
}

/// The value of an expression by the values that are kept, if it is to be evaluated.
fn value_if<'a>(
    f: &Facts<'a>,
    w: &mut Walk,
    s: &TypeEnv<'a>,
    e: &'a Expr,
    evaluates: bool,
) -> Result<Option<DslxValue>, AllocError>
    ensures misses { OnOk result (OnlyMisses (shown w.old) (shown w.new)) }
    ensures value { IfOk result (λ v. (shown w.new).missing ≡ [] → IsKeptValueIf evaluates f.now s.now e.now v) }
{
    if evaluates {
        value_of(f, w, s, e)
    } else {
        Ok(None)
    }
}

/// The value of an expression by the values that are kept. Nothing is used of it where it mentions an item that isn't known: that is noted.
fn value_of<'a>(
    f: &Facts<'a>,
    w: &mut Walk,
    s: &TypeEnv<'a>,
    e: &'a Expr,
) -> Result<Option<DslxValue>, AllocError>
    ensures misses { OnOk result (OnlyMisses (shown w.old) (shown w.new)) }
    ensures value { IfOk result (λ v. (shown w.new).missing ≡ [] → IsKeptValue f.now s.now e.now v) }
{
    let missing = w.missing.len();
    ask_settled(f, w, e)?;
    if w.missing.len() == missing {
        value_kept(f, s, e)
    } else {
        Ok(None)
    }
}

fn value_kept<'a>(
    f: &Facts<'a>,
    s: &TypeEnv<'a>,
    e: &'a Expr,
) -> Result<Option<DslxValue>, AllocError>
    ensures { IfOk result (λ v. v ≡ kept_value f.now s.now e.now) }
{
    let kept = &f.kept;
    let text = kept.items.text;
    let own = e;
    let scope = constant_scope(f, s)?;
    let bound = scope;
    const_eval_over(f.alloc, text, kept, bound, own)
}

/// The parametrics that no bound name hides, as what is bound.
#[tactic(auto, using(crate::proofs::OnNamed::OnConstants::bound_next, crate::proofs::OnNamed::OnConstants::all_args))]
fn constant_scope<'a>(f: &Facts<'a>, s: &TypeEnv<'a>) -> Result<Scope<'a>, AllocError>
    ensures { IfOk result (λ scope. scope ≡ args_in_scope s.now) }
{
    let mut scope = Scope::new(f.alloc);
    'parametrics: for i in 0..s.parametric_args.len() {
        bind_arg(f, s, &mut scope, i)?;
    }
    Ok(scope)
}

/// Binds the parametric at a place, from the first one on, unless a bound name hides it.
fn bind_arg<'a>(
    f: &Facts<'a>,
    s: &TypeEnv<'a>,
    scope: &mut Scope<'a>,
    at: usize,
) -> Result<(), AllocError>
    ensures { OnOk result ((b : List ℕ × ArgShown) → slice_get (reverse s.now.parametric_args) at ≡ Some b
        → scope.new ≡ unless_hidden (bound_names s.now.locals) (given_of b) scope.old) }
{
    match s.parametric_args.at(at) {
        Some((name, arg)) => bind_unless_hidden(f, s, scope, name, arg),
        None => Ok(()),
    }
}

fn bind_unless_hidden<'a>(
    f: &Facts<'a>,
    s: &TypeEnv<'a>,
    scope: &mut Scope<'a>,
    name: &'a Name,
    arg: &ParametricArg,
) -> Result<(), AllocError>
    ensures { OnOk result (scope.new ≡ unless_hidden (bound_names s.now.locals) (given_of (name.now, arg.now)) scope.old) }
{
    if s.locals.has(name) {
        return Ok(());
    }
    let value = copy_value(f.alloc, &arg.value)?;
    scope.bind(Binding { name, value })?;
    Ok(())
}
