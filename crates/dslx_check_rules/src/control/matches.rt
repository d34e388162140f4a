//! `match` from its arms.

ghost use Rattle.std.specs.Prelude.{◌≡◌, ◌++◌, ◌∷◌, ◌&&◌, [], List, not, is_some};
ghost use Rattle.std.specs.List.{list_all};
ghost use Rattle.base.specs.Lists.Prefix.{IsPrefix};
ghost use Rattle.dslx_meaning.specs.Lists.{all_some, last_of, where_true};
ghost use Rattle.dslx_meaning.specs.Rules.AggregateRules.{first_type_of};
ghost use Rattle.dslx_meaning.specs.Rules.ConstantRules.{is_empty};
ghost use Rattle.dslx_meaning.specs.Rules.PatternRules.{is_there};
ghost use Rattle.dslx_meaning.specs.Rules.ControlRules as the;
ghost use Rattle.dslx_meaning.specs.Rules.TypeEnvs.{TypeEnv, types_of};
ghost use Rattle.dslx_meaning.specs.Rules.Typings.{PatternSeen};
ghost use Rattle.dslx_check_rules.specs.Interned.{AreDistinct, HasRow, HasRowIf, ItemNames, type_at, type_if};
ghost use Rattle.dslx_check_rules.specs.declared.table.row.TypeRow.{TypeRow as Row};
ghost use Rattle.dslx_check_rules.specs.Control.Patterns.{IsPattern};
ghost use Rattle.dslx_check_rules.specs.Control.Matches as half;

use crate::control::patterns::PatternTyping;
use crate::nodes::operators::if_there;
use crate::nodes::{both, either, settle};
use crate::{Faults, TypeId, TypeTable, Typing, one_and, plus_size, rule};
use xb_span::Span;

/// The alternatives of an arm together.
#[derive(Clone, Copy)]
pub struct AlternativesTyping {
    pub faults: Faults,
    pub size: Option<u32>,
    pub is_known: bool,
    pub is_sure: bool,
    /// One of them binds a name.
    pub binds: bool,
}

impl AlternativesTyping {
    /// That of no alternative.
    pub fn none() -> AlternativesTyping
        ensures { (context : TypeEnv) → half.IsAlternatives result (the.no_alternative context) }
    {
        AlternativesTyping {
            faults: Faults::none(),
            size: Some(0),
            is_known: true,
            is_sure: false,
            binds: false,
        }
    }

    /// With one more behind them, which binds a name or not.
    pub fn and(self, next: PatternTyping, binds: bool) -> AlternativesTyping
        ensures { (x : the.AlternativesSeen) (p : PatternSeen) → half.IsAlternatives self x → IsPattern next p → binds ≡ not (is_empty p.names)
            → half.IsAlternatives result (half.alternative_behind x p) }
    {
        AlternativesTyping {
            faults: self.faults.and(next.faults),
            size: plus_size(self.size, next.size),
            is_known: both(self.is_known, next.is_known),
            is_sure: either(self.is_sure, next.is_sure),
            binds: either(self.binds, binds),
        }
    }
}

/// An arm: how many alternatives it has, what they come to, and its value.
#[derive(Clone, Copy)]
pub struct ArmTyping {
    pub count: usize,
    pub alternatives: AlternativesTyping,
    pub value: Typing,
}

/// What several arms come to together.
#[derive(Clone, Copy)]
pub struct ArmsTyping {
    pub faults: Faults,
    pub size: Option<u32>,
    /// Whether all that their patterns need is known.
    pub is_known: bool,
    /// Whether it is, and no pattern breaks anything.
    pub is_fine: bool,
    /// Whether each has a type.
    pub is_typed: bool,
    /// Whether an alternative binds a name.
    pub binds: bool,
}

impl ArmsTyping {
    fn none() -> ArmsTyping
        ensures { half.AreTogether result [] }
    {
        ArmsTyping {
            faults: Faults::none(),
            size: Some(0),
            is_known: true,
            is_fine: true,
            is_typed: true,
            binds: false,
        }
    }

    /// With one arm more.
    fn and(self, arm: ArmTyping) -> ArmsTyping
        ensures { (names : ItemNames) (rows later : List Row) (xs : List the.ArmTyping) (x : the.ArmTyping) → half.AreTogether self xs → half.IsArm names rows later arm x
            → half.AreTogether result (xs ++ x ∷ []) }
    {
        let own = arm.alternatives;
        let faults = own.faults.and(arm.value.faults);
        let size = plus_size(own.size, arm.value.size);
        let is_fine = both(own.is_known, own.faults.is_empty());
        let binds = both(1 < arm.count, own.binds);
        ArmsTyping {
            faults: self.faults.and(faults),
            size: plus_size(self.size, size),
            is_known: both(self.is_known, own.is_known),
            is_fine: both(self.is_fine, is_fine),
            is_typed: both(self.is_typed, arm.value.ty.is_some()),
            binds: either(self.binds, binds),
        }
    }
}

/// What the arms come to together.
fn all_arms(arms: &[ArmTyping]) -> ArmsTyping
    ensures { (names : ItemNames) (rows later : List Row) (xs : List the.ArmTyping) → half.AreArms names rows later arms.now xs → half.AreTogether result xs }
{
    let mut all = ArmsTyping::none();
    'arms: for arm in arms {
        all = all.and(*arm);
    }
    all
}

/// Whether the patterns of all arms are known and break nothing, so that it is asked which values they match.
pub fn are_fine(arms: &[ArmTyping]) -> bool
    ensures { (names : ItemNames) (rows later : List Row) (xs : List the.ArmTyping) → half.AreArms names rows later arms.now xs → result ≡ half.are_fine xs }
{
    let all = all_arms(arms);
    all.is_fine
}

/// Whether the last arm fits every value.
pub fn last_is_sure(arms: &[ArmTyping]) -> bool
    ensures { (names : ItemNames) (rows later : List Row) (xs : List the.ArmTyping) → half.AreArms names rows later arms.now xs → result ≡ the.last_is_sure (last_of xs) }
{
    match arms {
        [.., last] => last.alternatives.is_sure,
        [] => false,
    }
}

/// A `match` of a value, whose arms match each value of its type or not.
pub fn match_typing(
    types: &TypeTable,
    span: Span,
    value: Typing,
    arms: &[ArmTyping],
    is_exhaustive: bool,
) -> Typing
    ensures { half.FromArms span is_exhaustive types.now value arms.now result }
{
    let all = all_arms(arms);
    let lacks = lacks_some(value.ty, all.is_fine, is_exhaustive);
    let odd = either(arms.is_empty(), all.binds);
    let differs = differ(types, all.is_typed, arms);
    let is_odd = either(either(odd, differs), lacks);
    let own = Faults::breaks_if(is_odd, rule::MATCH_IS_EXHAUSTIVE, span);
    let parts = value.faults.and(all.faults);
    let faults = parts.and(own);
    let common = common_type(all, arms);
    let ty = if_there(value.ty, common);
    let size = one_and(plus_size(value.size, all.size));
    settle(types, span, ty, faults, size)
}

/// A value of this type isn't matched, where it is asked.
fn lacks_some(ty: Option<TypeId>, is_fine: bool, is_exhaustive: bool) -> bool
    ensures { result ≡ (is_there ty && is_fine && not is_exhaustive) }
{
    ty.is_some() && is_fine && !is_exhaustive
}

/// The type of the first arm, where each has one and all are known.
fn common_type(all: ArmsTyping, arms: &[ArmTyping]) -> Option<TypeId>
    ensures is { (names : ItemNames) (rows later : List Row) (xs : List the.ArmTyping) → half.AreTogether all xs → half.AreArms names rows later arms.now xs
        → type_if names later result ≡ where_true (the.all_known xs) (the.first_of_types (all_some (types_of (the.arm_values xs)))) }
    ensures there { (names : ItemNames) (rows later : List Row) (xs : List the.ArmTyping) → half.AreArms names rows later arms.now xs → HasRowIf rows result }
{
    let first = first_type(arms);
    if both(all.is_known, all.is_typed) {
        first
    } else {
        None
    }
}

/// The type of the first arm.
fn first_type(arms: &[ArmTyping]) -> Option<TypeId>
    ensures is { (names : ItemNames) (rows later : List Row) (xs : List the.ArmTyping) → half.AreArms names rows later arms.now xs
        → type_if names later result ≡ first_type_of (types_of (the.arm_values xs)) }
    ensures there { (names : ItemNames) (rows later : List Row) (xs : List the.ArmTyping) → half.AreArms names rows later arms.now xs → HasRowIf rows result }
{
    match arms {
        [first, ..] => first.value.ty,
        [] => None,
    }
}

/// The arms, if each has a type, are not all of one.
fn differ(types: &TypeTable, is_typed: bool, arms: &[ArmTyping]) -> bool
    ensures { (names : ItemNames) (later : List Row) (xs : List the.ArmTyping) → AreDistinct names → IsPrefix types.now later → half.AreArms names types.now later arms.now xs
        → is_typed ≡ is_some (all_some (types_of (the.arm_values xs))) → result ≡ the.differ (all_some (types_of (the.arm_values xs))) }
{
    is_typed && unlike_first(types, arms)
}

/// An arm that has a type hasn't the first one's, if that has one.
fn unlike_first(types: &TypeTable, arms: &[ArmTyping]) -> bool
    ensures { (names : ItemNames) (later : List Row) (xs : List the.ArmTyping) → AreDistinct names → IsPrefix types.now later → half.AreArms names types.now later arms.now xs
        → result ≡ half.unlike_first (types_of (the.arm_values xs)) }
{
    match arms {
        [first, rest @ ..] => match first.value.ty {
            Some(ty) => !all_like(types, ty, rest),
            None => false,
        },
        [] => false,
    }
}

/// Whether each of these that has a type has this one.
fn all_like(types: &TypeTable, ty: TypeId, arms: &[ArmTyping]) -> bool
    ensures { (names : ItemNames) (later : List Row) (xs : List the.ArmTyping) → AreDistinct names → IsPrefix types.now later → HasRow types.now ty → half.AreArms names types.now later arms.now xs
        → result ≡ list_all (half.is_like (type_at names later ty)) (types_of (the.arm_values xs)) }
{
    let mut are_like = true;
    'arms: for arm in arms {
        let own = is_like(types, ty, arm.value.ty);
        are_like = both(are_like, own);
    }
    are_like
}

/// Whether the second type is the first one, if it is there.
fn is_like(types: &TypeTable, ty: TypeId, other: Option<TypeId>) -> bool
    ensures { (names : ItemNames) (later : List Row) → AreDistinct names → IsPrefix types.now later → HasRow types.now ty → HasRowIf types.now other
        → result ≡ half.is_like (type_at names later ty) (type_if names later other) }
{
    match other {
        Some(other) => types.same(ty, other),
        None => true,
    }
}
