ghost use Rattle.std.specs.Prelude.{◌≡◌, ◌∷◌, [], length, OnOk};
ghost use Rattle.dslx_check_items.specs.Shown.{use_shown};
ghost use Rattle.dslx_check_items.specs.Inner.Walks.{binding, calling, keeping, naming, starts, valuing};
ghost use Rattle.dslx_check_items.specs.Inner.Plain.{walk_shown};

use crate::mention::{Mention, Use};
use base::texts::Name;
use dslx_meaning::names::{BoundNames, Callee, callee_of};
use std::alloc::{AllocError, Global};

/// What is mentioned so far, and what is bound there.
#[derive(Drop)]
pub(crate) struct Walk<'a> {
    pub(crate) found: Vec<Mention<'a>>,
    pub(crate) bound: BoundNames<'a>,
}

impl<'a> Walk<'a> {
    /// Before the first part.
    pub(crate) fn new(alloc: Global) -> Walk<'a>
        ensures { walk_shown result ≡ starts }
    {
        Walk {
            found: Vec::new(alloc),
            bound: BoundNames::new(alloc),
        }
    }

    /// A name, bound or not.
    #[tactic(auto, unfolding(crate::specs::Inner::Walks::naming))]
    pub(crate) fn mention(&mut self, use_as: Use, name: &'a Name) -> Result<(), AllocError>
        ensures { OnOk result (walk_shown self.new ≡ naming (use_shown use_as) name.now (walk_shown self.old)) }
    {
        self.found.push(Mention { use_as, name })?;
        Ok(())
    }

    /// A name that stands for a value: it is mentioned where it isn't bound.
    pub(crate) fn value(&mut self, name: &'a Name) -> Result<(), AllocError>
        ensures { OnOk result (walk_shown self.new ≡ valuing name.now (walk_shown self.old)) }
    {
        if self.bound.has(name) {
            Ok(())
        } else {
            self.mention(Use::Value, name)
        }
    }

    /// A name that is called: it is mentioned where it stands for no effect and no builtin.
    pub(crate) fn call(&mut self, name: &'a Name) -> Result<(), AllocError>
        ensures { OnOk result (walk_shown self.new ≡ calling name.now (walk_shown self.old)) }
    {
        match callee_of(name) {
            Callee::Function => self.mention(Use::Function, name),
            _ => Ok(()),
        }
    }

    /// Binds a name.
    #[tactic(auto, unfolding(crate::specs::Inner::Walks::binding))]
    pub(crate) fn bind(&mut self, name: &'a Name) -> Result<(), AllocError>
        ensures { OnOk result (walk_shown self.new ≡ binding (name.now ∷ []) (walk_shown self.old)) }
    {
        self.bound.bind(name)
    }

    /// How many names are bound.
    pub(crate) fn len(&self) -> usize
        ensures { result ≡ length self.now.bound }
    {
        self.bound.len()
    }

    /// Forgets all names but the first so many.
    #[tactic(auto, unfolding(crate::specs::Inner::Walks::keeping))]
    pub(crate) fn keep_first(&mut self, count: usize)
        ensures { walk_shown self.new ≡ keeping count (walk_shown self.old) }
    {
        self.bound.keep_first(count);
    }
}
