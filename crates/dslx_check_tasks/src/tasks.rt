//! Tasks, one after the other.

ghost use Rattle.std.specs.Prelude.{OnOk};
ghost use Rattle.dslx_check_tasks.specs.Standing.{WorkGoesOn};

use crate::work::Work;
use dslx_check_facts::Need;
use std::alloc::AllocError;

impl<'a> Work<'a> {
    /// Judges what is asked for, and all that it needs first.
    pub fn settle(&mut self, need: Need) -> Result<(), AllocError>
        ensures { OnOk result (WorkGoesOn self.old self.new) }
    {
        self.tasks.push(need)?;
        self.work_off()
    }

    /// Does all tasks. Past 2^64 - 1 steps, which no text needs, it gives up as for want of memory.
    pub(crate) fn work_off(&mut self) -> Result<(), AllocError>
        ensures { OnOk result (WorkGoesOn self.old self.new) }
    {
        'steps: for _ in 0..u64::MAX {
            match self.tasks.pop() {
                None => return Ok(()),
                Some(need) => self.step(need)?,
            }
        }
        Err(AllocError)
    }

    fn step(&mut self, need: Need) -> Result<(), AllocError>
        ensures { OnOk result (WorkGoesOn self.old self.new) }
    {
        match need {
            Need::Item(item) => self.judge_item(item),
            Need::Size(instance) => self.judge_instance(instance),
            Need::Instance(instance) => self.judge_instance(instance),
            Need::Foreign(number) => self.judge_part(number),
        }
    }
}
