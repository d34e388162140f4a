//! The top of a text is judged.

ghost use Rattle.std.specs.Prelude.{◌≡◌, [], Option, Some, IfOk, OnOk, MatchOption};
ghost use Rattle.dslx_tree.specs.declared.process.Proc.{Proc as ProcTree};
ghost use Rattle.dslx_check_declarations.specs.Tops.{IsProcAt, IsProcIf};
ghost use Rattle.dslx_check_rules.specs.Seen.{seen as seen_of};
ghost use Rattle.dslx_check_tasks.specs.Standing.{FindsTop, WorkGoesOn};

use crate::declarations::top_seen;
use crate::laws::what_is_known;
use crate::work::{Reaches, Work, begin, is_missing, walked};
use dslx_check_rules::Faults;
use dslx_tree::Proc;
use std::alloc::{AllocError, Global};

impl<'a> Work<'a> {
    /// What the defaults of the top break and reach, with the top's instance; nothing where there is no top.
    pub fn judge_top(&mut self, top: Option<(u32, &'a Proc)>) -> Result<Reaches, AllocError>
        ensures goes { OnOk result (WorkGoesOn self.old self.new) }
        ensures found { IfOk result (λ r. (o : Option ProcTree) → IsProcIf self.old.facts o top.entry → FindsTop self.old self.new o r) }
    {
        match top {
            None => Ok(nothing_reached(self.facts.alloc)),
            Some(own) => self.find_top(own.0, own.1),
        }
    }

    /// The top is walked over until its walk misses nothing.
    fn find_top(&mut self, item: u32, process: &'a Proc) -> Result<Reaches, AllocError>
        ensures goes { OnOk result (WorkGoesOn self.old self.new) }
        ensures found { IfOk result (λ r. (p : ProcTree) → IsProcAt self.old.facts item process.now p → FindsTop self.old self.new (Some p) r) }
    {
        'steps: for _ in 0..u64::MAX {
            match self.walk_top(item, process)? {
                Some(reaches) => return Ok(reaches),
                None => self.work_off()?,
            }
        }
        Err(AllocError)
    }

    /// What a walk over the top comes to. Where it misses something that is to be done first.
    fn walk_top(&mut self, item: u32, process: &'a Proc) -> Result<Option<Reaches>, AllocError>
        ensures goes { OnOk result (WorkGoesOn self.old self.new) }
        ensures found { IfOk result (λ o. (p : ProcTree) → IsProcAt self.old.facts item process.now p → MatchOption o Unit (FindsTop self.old self.new (Some p))) }
    {
        what_is_known();
        begin(&mut self.walk);
        let seen = top_seen(&self.facts, &mut self.walk, item, process)?;
        if is_missing(&self.walk) {
            self.tasks.extend_from_slice(self.walk.missing.as_slice())?;
            Ok(None)
        } else {
            let reaches = walked(self.facts.alloc, &self.walk, seen.faults)?;
            Ok(Some(reaches))
        }
    }
}

/// Nothing is broken and nothing is reached.
pub fn nothing_reached(alloc: Global) -> Reaches
    ensures faults { result.faults ≡ seen_of [] }
    ensures reached { result.reached.items ≡ [] }
{
    Reaches {
        faults: Faults::none(),
        reached: Vec::new(alloc),
    }
}
