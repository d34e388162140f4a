//! The steps that read files.

ghost use Rattle.std.specs.Prelude.{◌≡◌, ◌<◌, ◌≤◌, ◌^◌, Ok, length, IfOk, IfErr};
ghost use Rattle.std.specs.List.{AllByRecursion};
ghost use Rattle.xls_cmd.specs.Shared.Done.{StopsBy};
ghost use Rattle.vlog_tree.specs.WellFormed.{CanRun};
ghost use Rattle.vlog_tree.specs.Rows.{IsRowOf};
ghost use Rattle.cycle_sim.specs.Rows.RowFile.{count_rows};
ghost use Rattle.xls_cmd.specs.Sim.Simulation.{ReadsModule, ReadsRows};

use crate::shared::{Fault, Refusal, read_text};
use cycle_sim::rows::{Repeated, RowError, read_rows};
use sqlite_items::Items;
use std::alloc::Global;
use vlog_text::reader::read_v;
use vlog_tree::VModule;
use xb_span::ReadError;

/// The module of a file's bytes.
pub fn read_module<'a>(alloc: Global, name: &'a str, bytes: &[u8]) -> Result<VModule, Refusal<'a>>
    requires { length bytes.now < 2 ^ 32 }
    ensures reads { IfOk result (λ m. ReadsModule name.entry.now bytes.now (Ok m)) }
    ensures runs { IfOk result CanRun }
    ensures refused { IfErr result (StopsBy (ReadsModule name.entry.now bytes.now)) }
{
    let text = read_text(name, bytes)?;
    match read_v(alloc, text) {
        Ok(design) => Ok(design),
        Err(error) => Err(Refusal::of_text(name, error)),
    }
}

/// The rows that a file says for a module.
pub fn rows_of<'a>(
    alloc: Global,
    name: &'a str,
    file: &[u8],
    design: &VModule,
) -> Result<Items<Repeated>, Refusal<'a>>
    requires runs { CanRun design.now }
    requires short { length file.now < 2 ^ 32 }
    ensures says { IfOk result (λ rows. ReadsRows name.entry.now file.now design.now (Ok rows)) }
    ensures fits { IfOk result (AllByRecursion (λ r. IsRowOf design.now r.row)) }
    ensures few { IfOk result (λ rows. count_rows rows ≤ 1048576) }
    ensures refused { IfErr result (StopsBy (ReadsRows name.entry.now file.now design.now)) }
{
    cycle_sim::rows::laws::rows_fit();
    match read_rows(alloc, file, design) {
        Ok(rows) => Ok(rows),
        Err(RowError::Input(cause, at)) => Err(Refusal::Fault(Fault::Input(name, cause, at))),
        Err(RowError::Over(limit)) => Err(Refusal::Fault(Fault::Text(
            name,
            ReadError::Over(limit),
        ))),
        Err(RowError::OutOfMemory) => Err(Refusal::OutOfMemory),
    }
}
