//! What is known of a text, and what is left to do.

ghost use Rattle.std.specs.Prelude.{◌≡◌, [], true, false, IfOk, OnOk};
ghost use Rattle.std.specs.Option.{option_copied};
ghost use Rattle.dslx_check_items.specs.Reaching.{AreReached, item_needs};
ghost use Rattle.dslx_check_facts.specs.Known.{at_place, text_of};
ghost use Rattle.dslx_check_facts.specs.Names.{HasNoMarks};
ghost use Rattle.dslx_check_facts.specs.Walks.{shown};
ghost use Rattle.dslx_check_declarations.specs.Work.Text.{IsTextEnv};
ghost use Rattle.dslx_check_tasks.specs.Standing.{IsRight, IsSettledText, own_globals};

use crate::laws::what_is_known;
use dslx_check_facts::{Facts, Need, Walk};
use dslx_check_rules::Faults;
use dslx_tree::Module;
use std::alloc::{AllocError, Global};

/// What something breaks, and which instances it reaches.
#[derive(Drop)]
pub struct Reaches {
    pub faults: Faults,
    pub reached: Vec<u32>,
}

/// Where the checking of a text stands.
pub struct Work<'a> {
    pub facts: Facts<'a>,
    pub walk: Walk,
    /// What is asked for, the last one first.
    pub tasks: Vec<Need>,
    /// What each item comes to that is judged.
    pub items: Vec<Option<Reaches>>,
    /// What each instance comes to that is judged.
    pub instances: Vec<Option<Reaches>>,
}

/// Written out, so that it is proved once and not wherever one is let go.
impl<'a> Drop for Work<'a> {
    fn drop(self) {
        let Work {
            facts: _,
            walk: _,
            tasks: _,
            items: _,
            instances: _,
        } = self;
    }
}

impl<'a> Work<'a> {
    /// Where nothing is done.
    pub fn new(alloc: Global, text: &'a Module) -> Result<Work<'a>, AllocError>
        ensures text { IfOk result (λ w. text_of w.facts ≡ text.now) }
        ensures reached { IfOk result (λ w. AreReached (item_needs (text_of w.facts)) w.facts.reaching) }
        ensures plain { IfOk result (λ w. HasNoMarks (text_of w.facts)) }
        ensures right { IfOk result (λ w. IsTextEnv (text_of w.facts) w.facts.reaching (own_globals (text_of w.facts)) → IsSettledText (text_of w.facts) → IsRight w) }
    {
        what_is_known();
        let facts = Facts::new(alloc, text)?;
        let walk = Walk::new(alloc);
        let tasks = Vec::new(alloc);
        let items = Vec::new(alloc);
        let instances = Vec::new(alloc);
        Ok(Work {
            facts,
            walk,
            tasks,
            items,
            instances,
        })
    }

    /// What can't be judged yet is put back, with all that its walk missed before it.
    pub(crate) fn postpone(&mut self, need: Need) -> Result<(), AllocError>
        ensures { OnOk result (self.new ≡ record self.old { tasks = self.new.tasks }) }
    {
        self.tasks.push(need)?;
        self.tasks.extend_from_slice(self.walk.missing.as_slice())?;
        Ok(())
    }
}

/// A walk begins.
pub(crate) fn begin(w: &mut Walk)
    ensures { shown w.new ≡ record (shown w.old) { reached = []; missing = [] } }
{
    w.reached.clear();
    w.missing.clear();
}

/// Whether the walk asked for something that isn't known.
pub(crate) fn is_missing(w: &Walk) -> bool
    ensures some { result ≡ true → (shown w.now).missing ≡ [] → ⊥ }
    ensures none { result ≡ false → (shown w.now).missing ≡ [] }
{
    w.missing.as_slice().len() != 0
}

/// What a walk came to, with these faults.
pub(crate) fn walked(alloc: Global, w: &Walk, faults: Faults) -> Result<Reaches, AllocError>
    ensures faults { IfOk result (λ r. r.faults ≡ faults) }
    ensures reached { IfOk result (λ r. r.reached.items ≡ (shown w.now).reached) }
{
    let mut reached = Vec::new(alloc);
    reached.extend_from_slice(w.reached.as_slice())?;
    Ok(Reaches { faults, reached })
}

/// What is there of a number.
pub fn there<'w>(places: &'w [Option<Reaches>], at: u32) -> Option<&'w Reaches>
    ensures { option_copied result ≡ at_place places.now at }
{
    match places.get(at as usize) {
        Some(Some(reaches)) => Some(reaches),
        _ => None,
    }
}
