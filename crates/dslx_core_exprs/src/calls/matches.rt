//! Matches.

ghost use Rattle.std.specs.Prelude.{◌≡◌, Some, IfOk, map};
ghost use Rattle.std.specs.List.{list_all};
ghost use Rattle.dslx_core.specs.declared.expr.CoreExpr.{Select as select_core};
ghost use Rattle.dslx_core.specs.Lowering.EqualTypes.{equal_type as are_equal};
ghost use Rattle.dslx_core.specs.Lowering.Patterns as patterns;
ghost use Rattle.dslx_core.specs.Lowering.Patterns.{LoweredArm as ArmPart, arms_of as the_match};
ghost use Rattle.dslx_core_exprs.specs.Calls.Inner.Parts.{type_of_all as the_type_of_all, type_of_first as the_type_of_first};

use crate::alike::equal_type;
use dslx_core::lowering::{LoweredArm, LoweredExpr};
use dslx_core::{Arm, CoreExpr, Shape};
use dslx_meaning::DslxType;
use dslx_values::copy_type;
use std::alloc::{AllocError, Global};
use xb_value::{Boxed, Seq};

/// The arm of these alternatives and this value.
pub fn arm_of(shapes: Seq<Shape>, value: LoweredExpr) -> LoweredArm
    ensures { Some result ≡ patterns.arm_of shapes value }
{
    LoweredArm {
        arm: Arm {
            shapes,
            value: value.core.into_inner(),
        },
        ty: value.ty,
    }
}

/// The value of the first of the arms that fits a value, if there are any and all have values of one type.
#[tactic(auto, using(crate::proofs::OnCalls::MatchLemmas::select_none, crate::proofs::OnCalls::MatchLemmas::select_some))]
pub fn lower_select(
    alloc: Global,
    value: LoweredExpr,
    arms: Vec<LoweredArm>,
) -> Result<Option<LoweredExpr>, AllocError>
    ensures { IfOk result (λ e. e ≡ the_match value arms.items) }
{
    match type_of_all(alloc, arms.as_slice())? {
        Some(ty) => Ok(Some(LoweredExpr {
            core: select(alloc, value.core, arms)?,
            ty,
        })),
        None => Ok(None),
    }
}

/// The type of the first arm's value, copied, if there is one and all have values of its type.
fn type_of_all(alloc: Global, arms: &[LoweredArm]) -> Result<Option<DslxType>, AllocError>
    ensures { IfOk result (λ t. t ≡ the_type_of_all arms.now) }
{
    match arms {
        [] => Ok(None),
        [first, rest @ ..] => type_of_first(alloc, first, rest),
    }
}

#[tactic(auto, using(crate::proofs::OnCalls::MatchLemmas::all_alike, crate::proofs::OnCalls::MatchLemmas::not_alike))]
fn type_of_first(
    alloc: Global,
    first: &LoweredArm,
    rest: &[LoweredArm],
) -> Result<Option<DslxType>, AllocError>
    ensures { IfOk result (λ t. t ≡ the_type_of_first first.now rest.now) }
{
    if all_of_type(&first.ty, rest) {
        Ok(Some(copy_type(alloc, &first.ty)?))
    } else {
        Ok(None)
    }
}

/// Whether all arms have values of a type.
fn all_of_type(ty: &DslxType, arms: &[LoweredArm]) -> bool
    ensures { result ≡ list_all (λ (a : ArmPart). are_equal ty.now a.ty) arms.now }
{
    arms.iter().all(|arm| equal_type(ty, &arm.ty))
}

fn select(
    alloc: Global,
    value: Boxed<CoreExpr>,
    arms: Vec<LoweredArm>,
) -> Result<Boxed<CoreExpr>, AllocError>
    ensures { IfOk result (λ e. e ≡ select_core value (map (λ (a : ArmPart). a.arm) arms.items)) }
{
    let arms = without_types(alloc, arms)?;
    Boxed::new(alloc, CoreExpr::Select(value, arms))
}

fn without_types(alloc: Global, arms: Vec<LoweredArm>) -> Result<Seq<Arm>, AllocError>
    ensures { IfOk result (λ cores. cores ≡ map (λ (a : ArmPart). a.arm) arms.items) }
{
    let mut cores = Vec::new(alloc);
    'arms: for arm in arms {
        cores.push(arm.arm)?;
    }
    Ok(Seq::from_vec(cores))
}
