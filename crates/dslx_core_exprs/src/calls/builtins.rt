//! Builtins.

ghost use Rattle.std.specs.Prelude.{◌≡◌, ◌≢◌, ◌∷◌, ◌++◌, [], Some, IfOk, MatchOption, length, map};
ghost use Rattle.dslx_core.specs.declared.expr.CoreExpr.{Tuple as tuple_core, Update as update_core};
ghost use Rattle.dslx_meaning.specs.declared.ty.DslxType.{Token as token_type};
ghost use Rattle.dslx_meaning.specs.Names.Called.{kind_of};
ghost use Rattle.dslx_meaning.specs.Rules.AggregateRules.{array_in};
ghost use Rattle.dslx_core.specs.Lowering.Lowering as lowering;
ghost use Rattle.dslx_core_exprs.specs.Calls.Builtins.{builtin_of};
ghost use Rattle.dslx_core_exprs.specs.Calls.Inner.Parts.{is_of_elements as are_elements};

use crate::alike::equal_type;
use crate::calls::held::where_holds;
use crate::operators::{lower_counted, lower_reduced};
use dslx_core::lowering::LoweredExpr;
use dslx_core::{CoreExpr, CoreUnary};
use dslx_meaning::DslxType;
use dslx_meaning::names::Callee;
use std::alloc::{AllocError, Global};
use xb_value::{Boxed, Seq};

/// What a builtin gives for these operands. Effects, and functions of the text, are none.
#[tactic(auto, using(crate::proofs::OnCalls::BuiltinLemmas::join_is))]
pub fn lower_builtin(
    alloc: Global,
    callee: Callee,
    exprs: Vec<LoweredExpr>,
) -> Result<Option<LoweredExpr>, AllocError>
    ensures { IfOk result (λ e. e ≡ builtin_of (kind_of callee) exprs.items) }
{
    match callee {
        Callee::Join => Ok(Some(token(alloc)?)),
        Callee::CountLeading => counted(alloc, CoreUnary::Clz, exprs),
        Callee::CountTrailing => counted(alloc, CoreUnary::Ctz, exprs),
        Callee::Reverse => counted(alloc, CoreUnary::Rev, exprs),
        Callee::AllOnes => reduced(alloc, CoreUnary::AndReduce, exprs),
        Callee::SomeOne => reduced(alloc, CoreUnary::OrReduce, exprs),
        Callee::Parity => reduced(alloc, CoreUnary::XorReduce, exprs),
        Callee::Update => updated(alloc, exprs),
        _ => Ok(None),
    }
}

/// A token, which says nothing.
fn token(alloc: Global) -> Result<LoweredExpr, AllocError>
    ensures { IfOk result (λ e. Some e ≡ lowering.lowered (tuple_core []) token_type) }
{
    Ok(LoweredExpr {
        core: Boxed::new(alloc, CoreExpr::Tuple(Seq::new(alloc)))?,
        ty: DslxType::Token,
    })
}

/// An operation on one operand that gives a value of its type.
#[tactic(auto, using(crate::proofs::OnCalls::BuiltinLemmas::counted_none, crate::proofs::OnCalls::BuiltinLemmas::counted_some))]
fn counted(
    alloc: Global,
    operator: CoreUnary,
    exprs: Vec<LoweredExpr>,
) -> Result<Option<LoweredExpr>, AllocError>
    ensures { IfOk result (λ e. e ≡ lowering.lower_counted operator (map Some exprs.items)) }
{
    match one_of(Seq::from_vec(exprs)) {
        Some(operand) => Ok(Some(lower_counted(alloc, operator, operand)?)),
        None => Ok(None),
    }
}

/// An operation on one operand that gives one bit.
#[tactic(auto, using(crate::proofs::OnCalls::BuiltinLemmas::reduced_none, crate::proofs::OnCalls::BuiltinLemmas::reduced_some))]
fn reduced(
    alloc: Global,
    operator: CoreUnary,
    exprs: Vec<LoweredExpr>,
) -> Result<Option<LoweredExpr>, AllocError>
    ensures { IfOk result (λ e. e ≡ lowering.lower_reduced operator (map Some exprs.items)) }
{
    match one_of(Seq::from_vec(exprs)) {
        Some(operand) => Ok(Some(lower_reduced(alloc, operator, operand)?)),
        None => Ok(None),
    }
}

/// An array with another element at an index, if there are these three.
#[tactic(auto, using(crate::proofs::OnCalls::BuiltinLemmas::updated_none, crate::proofs::OnCalls::BuiltinLemmas::updated_some))]
fn updated(alloc: Global, exprs: Vec<LoweredExpr>) -> Result<Option<LoweredExpr>, AllocError>
    ensures { IfOk result (λ e. e ≡ lowering.lower_updated (map Some exprs.items)) }
{
    match three_of(Seq::from_vec(exprs)) {
        Some((array, index, new)) => lower_update(alloc, array, index, new),
        None => Ok(None),
    }
}

/// An array with another element at an index, if that is of its elements' type.
#[tactic(auto, using(crate::proofs::OnCalls::BuiltinLemmas::update_refused, crate::proofs::OnCalls::BuiltinLemmas::update_made))]
fn lower_update(
    alloc: Global,
    array: LoweredExpr,
    index: LoweredExpr,
    new: LoweredExpr,
) -> Result<Option<LoweredExpr>, AllocError>
    ensures { IfOk result (λ e. e ≡ lowering.lower_updated (Some array ∷ Some index ∷ Some new ∷ [])) }
{
    let fits = is_of_elements(&array.ty, &new.ty);
    match where_holds(fits, (array, index, new)) {
        Some((array, index, new)) => Ok(Some(with_update(alloc, array, index, new)?)),
        None => Ok(None),
    }
}

fn with_update(
    alloc: Global,
    array: LoweredExpr,
    index: LoweredExpr,
    new: LoweredExpr,
) -> Result<LoweredExpr, AllocError>
    ensures { IfOk result (λ e. e ≡ record { core = update_core array.core index.core new.core; ty = array.ty }) }
{
    Ok(LoweredExpr {
        core: Boxed::new(alloc, CoreExpr::Update(array.core, index.core, new.core))?,
        ty: array.ty,
    })
}

/// Whether a type is that of an array's elements.
fn is_of_elements(array: &DslxType, ty: &DslxType) -> bool
    ensures { result ≡ are_elements (array_in array.now) ty.now }
{
    match array {
        DslxType::Array(part, _) => equal_type(part.get(), ty),
        _ => false,
    }
}

/// The one item, if it is one.
#[tactic(auto, using(crate::proofs::OnCalls::Counted::one_is, crate::proofs::OnCalls::Counted::none_is_one, crate::proofs::OnCalls::Counted::more_than_one))]
fn one_of<T: Drop>(items: Seq<T>) -> Option<T>
    ensures { MatchOption result (length items ≢ 1) (λ one. items ≡ one ∷ []) }
{
    match last_of(items) {
        Some((rest, one)) => if rest.len() == 0 { Some(one) } else { None },
        None => None,
    }
}

/// The items, if they are three.
#[tactic(auto, using(crate::proofs::OnCalls::Counted::three_are, crate::proofs::OnCalls::Counted::none_are_three, crate::proofs::OnCalls::Counted::one_is_not_three, crate::proofs::OnCalls::Counted::others_are_not_three))]
fn three_of<T: Drop>(items: Seq<T>) -> Option<(T, T, T)>
    ensures { MatchOption result (length items ≢ 3) (λ three. items ≡ three.0 ∷ three.1 ∷ three.2 ∷ []) }
{
    match last_of(items) {
        Some((items, third)) => match last_of(items) {
            Some((items, second)) => match one_of(items) {
                Some(first) => Some((first, second, third)),
                None => None,
            },
            None => None,
        },
        None => None,
    }
}

/// The last item, and those before it.
fn last_of<T: Drop>(mut items: Seq<T>) -> Option<(Seq<T>, T)>
    ensures { MatchOption result (items ≡ []) (λ last. items ≡ last.0 ++ last.1 ∷ []) }
{
    match items.pop() {
        Some(last) => Some((items, last)),
        None => None,
    }
}
