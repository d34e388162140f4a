//! Parts of declarations are judged.

ghost use Rattle.std.specs.Prelude.{◌≡◌, Some, OnOk, slice_get};
ghost use Rattle.dslx_check_facts.specs.Walks.{shown};
ghost use Rattle.dslx_check_tasks.specs.Standing.{WorkGoesOn};

use crate::declarations::part_seen;
use crate::laws::what_is_known;
use crate::work::{Work, begin, is_missing};
use dslx_check_declarations::work::learn_part;
use dslx_check_facts::{ForeignKey, Need};
use std::alloc::AllocError;

impl<'a> Work<'a> {
    /// Judges a part of a declaration, unless it is judged, or puts it back.
    pub(crate) fn judge_part(&mut self, number: u32) -> Result<(), AllocError>
        ensures { OnOk result (WorkGoesOn self.old self.new) }
    {
        match self.facts.foreign.get(number as usize) {
            Some(Some(_)) => return Ok(()),
            _ => {}
        }
        match self.walk.asked.get(number) {
            None => Err(AllocError),
            Some(key) => self.walk_part(number, key),
        }
    }

    /// Walks over the text of a part.
    fn walk_part(&mut self, number: u32, key: ForeignKey) -> Result<(), AllocError>
        requires { slice_get (shown self.now.walk).asked number ≡ Some key }
        ensures { OnOk result (WorkGoesOn self.old self.new) }
    {
        what_is_known();
        begin(&mut self.walk);
        let there = part_seen(&self.facts, &mut self.walk, key)?;
        if is_missing(&self.walk) {
            self.postpone(Need::Foreign(number))
        } else {
            learn_part(&mut self.facts, number, there)
        }
    }
}
