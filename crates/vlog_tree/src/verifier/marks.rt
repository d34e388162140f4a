ghost use Rattle.std.specs.Prelude.{◌≡◌, ℕ, List, [], ◌∷◌, ◌++◌, map, false, get_or, IfOk};
ghost use Rattle.vlog_tree.specs.Verifier.Verified.{targets, set_targets};
ghost use Rattle.vlog_tree.specs.Verifier.Inner.Seen.{ShowsMarks, mark_at};

use crate::{Assignment, Set};
use std::alloc::{AllocError, Global};

/// Which signals of a module were marked. Each call takes the same time, however many there are.
#[derive(Drop)]
pub struct Marks {
    flags: Vec<bool>,
}

impl Marks {
    /// So many signals, none of which is marked.
    pub fn new(alloc: Global, count: usize) -> Result<Marks, AllocError>
        ensures { IfOk result (λ marks. ShowsMarks count marks []) }
    {
        Ok(Marks {
            flags: vec![in alloc; false; count]?,
        })
    }

    /// Whether a signal is there and is marked.
    pub fn has(&self, signal: usize) -> bool
        ensures { result ≡ mark_at self.now signal }
    {
        match self.flags.get(signal) {
            Some(flag) => *flag,
            None => false,
        }
    }

    /// Marks a signal, if it is there.
    pub fn mark(&mut self, signal: usize)
        ensures { (count : ℕ) (targets : List ℕ) → ShowsMarks count self.old targets → ShowsMarks count self.new (targets ++ signal ∷ []) }
    {
        if signal < self.flags.len() {
            self.flags[signal] = true;
        }
    }

    /// The targets of assignments.
    pub fn of_assignments(
        alloc: Global,
        count: usize,
        assignments: &[Assignment],
    ) -> Result<Marks, AllocError>
        ensures { IfOk result (λ marks. ShowsMarks count marks (targets assignments.now)) }
    {
        let mut marks = Marks::new(alloc, count)?;
        for assignment in assignments {
            marks.mark(assignment.target.0 as usize);
        }
        Ok(marks)
    }

    /// The targets of sets.
    pub fn of_sets(alloc: Global, count: usize, sets: &[Set]) -> Result<Marks, AllocError>
        ensures { IfOk result (λ marks. ShowsMarks count marks (set_targets sets.now)) }
    {
        let mut marks = Marks::new(alloc, count)?;
        for set in sets {
            marks.mark(set.target.0 as usize);
        }
        Ok(marks)
    }
}
