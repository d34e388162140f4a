//! Running a module over rows.

ghost use Rattle.std.specs.Prelude.{◌≡◌, ◌+◌, ◌<◌, ◌≤◌, ◌^◌, ◌++◌, [], List, replicate, IfOk, OnOk};
ghost use Rattle.std.specs.List.{AllByRecursion};
ghost use Rattle.vlog_tree.specs.declared.row.Row.{Row as AnyRow};
ghost use Rattle.vlog_tree.specs.WellFormed.{CanRun};
ghost use Rattle.vlog_tree.specs.Rows.{IsRowOf};
ghost use Rattle.cycle_sim.specs.Rows.RowFile.{all_rows, count_rows};
ghost use Rattle.cycle_sim.specs.Cycles.Inner.Standing.{HasWritten};
ghost use Rattle.cycle_sim.specs.Cycles.Simulated.{IsSimulated};

use crate::cycles::bench::{Bench, new_bench};
use crate::cycles::moved::push_all_moved;
use crate::rows::Repeated;
use std::alloc::{AllocError, Global};
use vlog_tree::{Row, VModule};

/// The text of what a module does over rows, of which each is repeated as often as it says.
pub fn simulate(alloc: Global, design: VModule, rows: &[Repeated]) -> Result<Vec<u8>, AllocError>
    requires runs { CanRun design }
    requires rows { AllByRecursion (λ r. IsRowOf design r.row) rows.now }
    requires few { count_rows rows.now ≤ 1048576 }
    ensures { IfOk result (λ text. IsSimulated design (all_rows rows.now) text.items) }
{
    let mut bench = new_bench(alloc, design)?;
    run(alloc, &mut bench, rows)?;
    let text = finish(alloc, bench)?;
    Ok(text)
}

/// All rows.
fn run(alloc: Global, bench: &mut Bench, rows: &[Repeated]) -> Result<(), AllocError>
    requires rows { AllByRecursion (λ r. IsRowOf bench.old.sim.design r.row) rows.now }
    requires few { bench.old.count + count_rows rows.now < 2 ^ 32 }
    requires written { HasWritten bench.old [] }
    ensures design { OnOk result (bench.new.sim.design ≡ bench.old.sim.design) }
    ensures written { OnOk result (HasWritten bench.new (all_rows rows.now)) }
{
    'rows: for repeated in rows {
        repeat(alloc, bench, &repeated.row, repeated.times)?;
    }
    Ok(())
}

/// A row, so many times.
fn repeat(alloc: Global, bench: &mut Bench, row: &Row, times: u32) -> Result<(), AllocError>
    requires row { IsRowOf bench.old.sim.design row.now }
    requires few { bench.old.count + times < 2 ^ 32 }
    requires written { (rows : List AnyRow) × HasWritten bench.old rows }
    ensures design { OnOk result (bench.new.sim.design ≡ bench.old.sim.design) }
    ensures count { OnOk result (bench.new.count ≡ bench.old.count + times) }
    ensures written { OnOk result ((rows : List AnyRow) → HasWritten bench.old rows → HasWritten bench.new (rows ++ replicate times row.now)) }
{
    'times: for _done in 0..times {
        bench.cycle(alloc, row)?;
    }
    Ok(())
}

/// The whole text, with the lines of the channels at its end.
fn finish(alloc: Global, bench: Bench) -> Result<Vec<u8>, AllocError>
    requires { (rows : List AnyRow) × HasWritten bench rows }
    ensures { IfOk result (λ text. (rows : List AnyRow) → HasWritten bench rows → IsSimulated bench.sim.design rows text.items) }
{
    let mut text = bench.text;
    push_all_moved(alloc, &mut text, bench.names.as_slice(), &bench.moved)?;
    Ok(text)
}
