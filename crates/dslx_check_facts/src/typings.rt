//! What a walk comes to, by what its parts came to.

ghost use Rattle.dslx_check_facts.specs.Typings.{IsSettled, IsUnlimited};
ghost use Rattle.dslx_check_facts.specs.Walks.{shown};

use crate::walk::Walk;
use dslx_check_rules::{Faults, TypeId, Typing, settled, unlimited};
use xb_span::Span;

impl Walk {
    /// The typing of a part of this type, with the faults of it and its parts and with so many nodes, to which no limit applies.
    pub fn unlimited(&self, ty: Option<TypeId>, faults: Faults, size: Option<u32>) -> Typing
        ensures { IsUnlimited (shown self.now) ty faults size result }
    {
        unlimited(ty, faults, size)
    }

    /// The typing of a part of this type, with the limits on it.
    pub fn settled(
        &self,
        span: Span,
        ty: Option<TypeId>,
        faults: Faults,
        size: Option<u32>,
    ) -> Typing
        ensures { IsSettled (shown self.now) span ty faults size result }
    {
        settled(&self.types, span, ty, faults, size)
    }
}
