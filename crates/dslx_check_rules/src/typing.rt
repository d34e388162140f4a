//! What a part comes to, by what is found of it.

ghost use Rattle.std.specs.Prelude.{◌≡◌, ◌++◌, ℕ, List, Option, None, if◌then◌else◌};
ghost use Rattle.base.specs.Lists.Prefix.{IsPrefix};
ghost use Rattle.xb_span.specs.declared.fault.Fault as one;
ghost use Rattle.dslx_meaning.specs.Lists.{and_then};
ghost use Rattle.dslx_meaning.specs.Rules.TypeEnvs as the;
ghost use Rattle.dslx_meaning.specs.Rules.RuleNumbers as asks;
ghost use Rattle.dslx_check_rules.specs.Seen.{seen};
ghost use Rattle.dslx_check_rules.specs.declared.table.row.TypeRow.{TypeRow as Row};
ghost use Rattle.dslx_check_rules.specs.Interned.{HasRowIf, ItemNames, type_if};

use crate::faults::Faults;
use crate::kinds::holds_token;
use crate::limits::type_limits;
use crate::rule;
use crate::table::{TypeId, TypeTable};
use xb_span::Span;

/// The typing of a part: its type if it has one, its faults, and how many nodes it has but for the bodies that it calls, which are noted
/// with what it reaches.
#[derive(Clone, Copy)]
pub struct Typing {
    pub ty: Option<TypeId>,
    pub faults: Faults,
    pub size: Option<u32>,
}

impl Typing {
    /// The same with more faults.
    pub fn with(self, more: Faults) -> Typing
        ensures ty { result.ty ≡ self.ty }
        ensures faults { (a b : List one.Fault) → self.faults ≡ seen a → more ≡ seen b → result.faults ≡ seen (a ++ b) }
        ensures size { result.size ≡ self.size }
    {
        Typing {
            ty: self.ty,
            faults: self.faults.and(more),
            size: self.size,
        }
    }
}

/// A part of this type, to which no limit applies: it has its type only where no rule is broken, and a size only where it has a type.
pub fn unlimited(ty: Option<TypeId>, faults: Faults, size: Option<u32>) -> Typing
    ensures ty { (names : ItemNames) (rows : List Row) (fs : List one.Fault) (reached : List the.Instance) (n : Option ℕ) → faults ≡ seen fs
        → type_if names rows result.ty ≡ (the.unlimited (type_if names rows ty) fs reached n).ty }
    ensures faults { result.faults ≡ faults }
    ensures size { result.size ≡ and_then result.ty (λ t. size) }
    ensures there { (rows : List Row) → HasRowIf rows ty → HasRowIf rows result.ty }
{
    let own = if faults.broken { None } else { ty };
    Typing {
        ty: own,
        faults,
        size: if own.is_some() { size } else { None },
    }
}

/// The same with the limits on its type.
pub fn limited(types: &TypeTable, span: Span, typing: Typing) -> Typing
    ensures ty { result.ty ≡ typing.ty }
    ensures faults { (names : ItemNames) (later : List Row) (fs : List one.Fault) → IsPrefix types.now later → HasRowIf types.now typing.ty → typing.faults ≡ seen fs
        → result.faults ≡ seen (fs ++ the.type_limits span.to (type_if names later typing.ty)) }
    ensures size { result.size ≡ typing.size }
{
    typing.with(type_limits(types, span.to, typing.ty))
}

/// A part of this type, with the limits on it.
pub fn settled(
    types: &TypeTable,
    span: Span,
    ty: Option<TypeId>,
    faults: Faults,
    size: Option<u32>,
) -> Typing
    ensures ty { (names : ItemNames) (rows : List Row) (fs : List one.Fault) (reached : List the.Instance) (n : Option ℕ) → faults ≡ seen fs
        → type_if names rows result.ty ≡ (the.settled span (type_if names rows ty) fs reached n).ty }
    ensures faults { (names : ItemNames) (later : List Row) (fs : List one.Fault) (reached : List the.Instance) (n : Option ℕ) → IsPrefix types.now later
        → HasRowIf types.now ty → faults ≡ seen fs → result.faults ≡ seen (the.settled span (type_if names later ty) fs reached n).faults }
    ensures size { result.size ≡ and_then result.ty (λ t. size) }
    ensures there { (rows : List Row) → HasRowIf rows ty → HasRowIf rows result.ty }
{
    limited(types, span, unlimited(ty, faults, size))
}

/// The same where a value stands alone: a token and a receive's pair don't stand there.
pub fn no_token(types: &TypeTable, span: Span, typing: Typing) -> Typing
    ensures ty { (names : ItemNames) (later : List Row) (fs : List one.Fault) (reached : List the.Instance) (n : Option ℕ) → IsPrefix types.now later → HasRowIf types.now typing.ty
        → type_if names later result.ty ≡ (the.no_token span (record { ty = type_if names later typing.ty; faults = fs; reached = reached; size = n })).ty }
    ensures faults { (names : ItemNames) (later : List Row) (fs : List one.Fault) (reached : List the.Instance) (n : Option ℕ) → IsPrefix types.now later → HasRowIf types.now typing.ty
        → typing.faults ≡ seen fs → result.faults ≡ seen (the.no_token span (record { ty = type_if names later typing.ty; faults = fs; reached = reached; size = n })).faults }
    ensures size { result.size ≡ typing.size }
    ensures there { (rows : List Row) → HasRowIf rows typing.ty → HasRowIf rows result.ty }
{
    match typing.ty {
        None => typing,
        Some(ty) => {
            let is_held = holds_token(types, ty);
            without_token(is_held, span, typing)
        }
    }
}

/// The same where its type holds a token, or doesn't.
fn without_token(is_held: bool, span: Span, typing: Typing) -> Typing
    ensures ty { result.ty ≡ (if is_held then None else typing.ty) }
    ensures faults { (fs : List one.Fault) → typing.faults ≡ seen fs → result.faults ≡ seen (fs ++ the.breaks_if is_held asks.EFFECT_STANDS_ALONE span) }
    ensures size { result.size ≡ typing.size }
{
    let own = Faults::breaks_if(is_held, rule::EFFECT_STANDS_ALONE, span);
    Typing {
        ty: if is_held { None } else { typing.ty },
        faults: typing.faults.and(own),
        size: typing.size,
    }
}
