//! A module under test.

ghost use Rattle.std.specs.Prelude.{◌≡◌, ◌+◌, ◌<◌, ◌^◌, ◌∷◌, ◌++◌, [], List, length, replicate, IfOk, OnOk};
ghost use Rattle.vlog_tree.specs.declared.row.Row.{Row as AnyRow};
ghost use Rattle.vlog_tree.specs.WellFormed.{CanRun};
ghost use Rattle.vlog_tree.specs.Rows.{IsRowOf};
ghost use Rattle.cycle_sim.specs.Cycles.Inner.Standing.{HasWritten};
ghost use Rattle.cycle_sim.specs.Cycles.CycleText.{moved_texts};

use crate::Sim;
use crate::cycles::moved::{move_all, push_all_moved};
use crate::cycles::shown::push_row;
use crate::rows::channel_names;
use sqlite_items::Items;
use std::alloc::{AllocError, Global};
use vlog_tree::{Row, VModule};
use xb_bits::Bits;

/// A module that runs, and what was written of it.
#[derive(Drop)]
pub struct Bench {
    pub sim: Sim,
    /// The names of its channels.
    pub names: Items<Items<u8>>,
    pub text: Vec<u8>,
    /// What went through each channel since the last row with reset.
    pub moved: Vec<Items<Bits>>,
    /// How many cycles there were.
    pub count: u64,
}

/// A bench with a module, before its first cycle.
pub fn new_bench(alloc: Global, design: VModule) -> Result<Bench, AllocError>
    requires { CanRun design }
    ensures design { IfOk result (λ b. b.sim.design ≡ design) }
    ensures count { IfOk result (λ b. b.count ≡ 0) }
    ensures written { IfOk result (λ b. HasWritten b []) }
{
    let names = channel_names(alloc, &design)?;
    let moved = none_moved(alloc, names.len())?;
    let sim = Sim::new(alloc, design)?;
    Ok(Bench {
        sim,
        names,
        text: Vec::new(alloc),
        moved,
        count: 0,
    })
}

/// An empty list for each of so many channels.
fn none_moved(alloc: Global, count: usize) -> Result<Vec<Items<Bits>>, AllocError>
    ensures { IfOk result (λ moved. moved.items ≡ replicate count []) }
{
    let mut moved = Vec::new(alloc);
    'channels: for _made in 0..count {
        moved.push(Items::new(alloc))?;
    }
    Ok(moved)
}

impl Bench {
    /// One cycle.
    pub fn cycle(&mut self, alloc: Global, row: &Row) -> Result<(), AllocError>
        requires row { IsRowOf self.old.sim.design row.now }
        requires few { self.old.count + 1 < 2 ^ 63 }
        requires written { (rows : List AnyRow) × HasWritten self.old rows }
        ensures design { OnOk result (self.new.sim.design ≡ self.old.sim.design) }
        ensures count { OnOk result (self.new.count ≡ self.old.count + 1) }
        ensures written { OnOk result ((rows : List AnyRow) → HasWritten self.old rows → HasWritten self.new (rows ++ row.now ∷ [])) }
    {
        self.sim.cycle(row);
        push_row(
            alloc,
            &mut self.text,
            self.names.as_slice(),
            self.count,
            &self.sim,
        )?;
        move_all(alloc, &mut self.moved, row, &self.sim)?;
        self.count += 1;
        Ok(())
    }
}
