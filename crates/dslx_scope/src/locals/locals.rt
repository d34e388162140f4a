ghost use Rattle.std.specs.Prelude.{◌≡◌, ◌∷◌, ◌++◌, ◌-◌, [], drop, length, OnOk};
ghost use Rattle.std.specs.Option.{option_copied};
ghost use Rattle.dslx_meaning.specs.Lists.{is_in};
ghost use Rattle.dslx_core.specs.Lowering.CoreScopes.{local_in, slot_names};

use base::texts::Name;
use dslx_core::lowering::BoundSlot;
use std::alloc::{AllocError, Global};
use std::marker::Model;

/// The names that are bound in a scope. Contracts see the list, the last name first.
pub struct Locals {
    slots: Vec<BoundSlot>,
}

/// Written out, so that it is proved once and not wherever one is let go.
impl Drop for Locals {
    fn drop(self) {
        let Locals { slots: _ } = self;
    }
}

impl Model for Locals {
    ghost use Rattle.std.specs.Prelude.{List, reverse};
    ghost use Rattle.std.specs.Coded.{codes};
    ghost use Rattle.dslx_core.specs.Lowering.CoreScopes.{BoundSlot};
    ghost use Rattle.dslx_core.specs.contracts.lowering.expr.BoundSlot as entries;

    ghost Value = { List BoundSlot };

    ghost coded = { Prim.hlevel (codes, entries.the_row.coded) };

    ghost view = { λ s. reverse s.slots.items };
}

impl Locals {
    /// Where nothing is bound.
    pub fn new(alloc: Global) -> Locals
        ensures { result ≡ [] }
    {
        Locals {
            slots: Vec::new(alloc),
        }
    }

    /// Binds one name more.
    pub fn bind(&mut self, slot: BoundSlot) -> Result<(), AllocError>
        ensures { OnOk result (self.new ≡ slot ∷ self.old) }
    {
        self.slots.push(slot)?;
        Ok(())
    }

    /// Binds all of these too, in their order.
    #[tactic(auto, using(crate::proofs::OnLocals::Ends::joined))]
    pub fn bind_all(&mut self, mut names: Locals) -> Result<(), AllocError>
        ensures { OnOk result (self.new ≡ names ++ self.old) }
    {
        self.slots.append(&mut names.slots)?;
        Ok(())
    }

    /// How many names are bound.
    #[tactic(auto, using(crate::proofs::OnLocals::Ends::counted))]
    pub fn len(&self) -> usize
        ensures { result ≡ length self.now }
    {
        self.slots.len()
    }

    /// Keeps as many names, the first ones; all where there are fewer.
    #[tactic(auto, using(crate::proofs::OnLocals::Ends::kept))]
    pub fn keep(&mut self, count: usize)
        ensures { self.new ≡ drop (length self.old - count) self.old }
    {
        self.slots.truncate(count);
    }

    /// The last of this name. It takes time as names are bound.
    pub fn get(&self, name: &Name) -> Option<&BoundSlot>
        ensures { option_copied result ≡ local_in name.now self.now }
    {
        let count = self.slots.len();
        'names: for i in 0..count {
            let slot = &self.slots[count - 1 - i];
            if *name == slot.name {
                return Some(slot);
            }
        }
        None
    }

    /// Whether the name is bound.
    #[tactic(auto, using(crate::proofs::OnLocals::Ends::is_bound, crate::proofs::OnLocals::Ends::is_not_bound))]
    pub fn has(&self, name: &Name) -> bool
        ensures { result ≡ is_in name.now (slot_names self.now) }
    {
        match self.get(name) {
            Some(_) => true,
            None => false,
        }
    }
}
