//! The names that a pattern binds.

ghost use Rattle.std.specs.Prelude.{◌≡◌, ◌∷◌, [], suc, OnOk};

use crate::names::ScopeEnv;
use base::texts::Name;
use dslx_core::lowering::BoundSlot;
use dslx_meaning::DslxType;
use dslx_scope::locals::Locals;
use std::alloc::{AllocError, Global};

/// The scope of a whole pattern, in which its numbers are evaluated: what names are visible, and how many values are bound.
#[derive(Clone, Copy)]
pub(crate) struct Outer<'a> {
    pub context: ScopeEnv<'a>,
    pub count: u64,
}

/// The names that a pattern binds so far, and how many values are bound behind them.
#[derive(Drop)]
pub(crate) struct Fresh {
    pub names: Locals,
    pub count: u64,
}

impl Fresh {
    /// Where the pattern binds nothing yet.
    pub(crate) fn new(alloc: Global, count: u64) -> Fresh
        ensures { result ≡ record { names = []; count = count } }
    {
        Fresh {
            names: Locals::new(alloc),
            count,
        }
    }

    /// Binds one more value, to this name. More than 2^64 - 1 of them are answered as for want of memory.
    pub(crate) fn bind(&mut self, name: Name, ty: DslxType) -> Result<(), AllocError>
        ensures { OnOk result (self.new ≡ record { names = record { name = name; slot = self.old.count; ty = ty } ∷ self.old.names; count = suc self.old.count }) }
    {
        match self.count.checked_add(1) {
            Some(more) => {
                let slot = self.count;
                self.names.bind(BoundSlot { name, slot, ty })?;
                self.count = more;
                Ok(())
            }
            None => Err(AllocError),
        }
    }
}
