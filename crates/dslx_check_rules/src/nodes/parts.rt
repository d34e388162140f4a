//! Typings of parts, and that of a node from what is found of it.

ghost use Rattle.std.specs.Prelude.{◌≡◌, ◌&&◌, ◌||◌};
ghost use Rattle.dslx_check_rules.specs.Nodes.Parts.{Settles, Unlimits};

use crate::{Faults, TypeId, TypeTable, Typing, settled, unlimited};
use dslx_meaning::{DslxValue, UntypedLiteral};
use xb_span::Span;

/// The typing of a part beside its span.
#[derive(Clone, Copy)]
pub struct Spanned {
    pub span: Span,
    pub typing: Typing,
}

/// The typing of a constant: its value if it has one, without which it has no type either. A number without a type has a value only by
/// where it stands.
#[derive(Drop)]
pub struct ConstantTyping {
    pub typing: Typing,
    pub untyped: Option<UntypedLiteral>,
    pub value: Option<DslxValue>,
}

/// The typing of a width, a size or a depth, and the number that it is.
#[derive(Clone, Copy)]
pub struct CountTyping {
    pub typing: Typing,
    pub count: Option<u128>,
}

/// A node of this type, with the limits on it.
pub fn settle(
    types: &TypeTable,
    span: Span,
    ty: Option<TypeId>,
    faults: Faults,
    size: Option<u32>,
) -> Typing
    ensures { Settles span types.now ty faults size result }
{
    settled(types, span, ty, faults, size)
}

/// A node of this type, to which no limit applies.
pub(crate) fn unlimit(ty: Option<TypeId>, faults: Faults, size: Option<u32>) -> Typing
    ensures { Unlimits ty faults size result }
{
    unlimited(ty, faults, size)
}

/// Whether both are so.
pub fn both(a: bool, b: bool) -> bool
    ensures { result ≡ (a && b) }
{
    a && b
}

/// Whether one of the two is so.
pub fn either(a: bool, b: bool) -> bool
    ensures { result ≡ (a || b) }
{
    a || b
}
