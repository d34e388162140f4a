ghost use Rattle.std.specs.Prelude.{◌≡◌, ◌<◌, ◌^◌, Ok, length, IfOk, IfErr};
ghost use Rattle.xls_cmd.specs.Shared.Done.{IsDone, StopsBy};
ghost use Rattle.xls_cmd.specs.Shared.Events.{file_events};
ghost use Rattle.xls_cmd.specs.Shared.Step.{ExpectedBy};
ghost use Rattle.cmd_line.specs.Named.{named_sim};
ghost use Rattle.xls_cmd.specs.Sim.Simulation.{sim, sim_files, sim_texts};

use crate::shared::{Refusal, load};
use crate::sim::source::{read_module, rows_of};
use cmd_line::Sim;
use cycle_sim::cycles::simulate;
use std::alloc::Global;
use xb_io::Files;

/// `sim FILE ROWS`
pub fn sim_design<'a, F: Files>(
    alloc: Global,
    files: &mut F,
    arguments: Sim<&'a str>,
) -> Result<Vec<u8>, Refusal<'a>>
    ensures { let asked = named_sim arguments.entry in
        IsDone (λ text. text.items) (ExpectedBy (F.told files.old) (λ holds. sim holds asked)) (sim_files asked)
        (file_events F.asked F.faults F.taken files.old files.new) result }
{
    let design = load(alloc, files, arguments.design)?;
    let rows = load(alloc, files, arguments.rows)?;
    sim_loaded(alloc, &arguments, &design, &rows)
}

/// What `sim` gives once both files are loaded.
fn sim_loaded<'a>(
    alloc: Global,
    arguments: &Sim<&'a str>,
    bytes: &[u8],
    file: &[u8],
) -> Result<Vec<u8>, Refusal<'a>>
    requires design { length bytes.now < 2 ^ 32 }
    requires rows { length file.now < 2 ^ 32 }
    ensures gives { IfOk result (λ text. sim_texts (named_sim arguments.now) bytes.now file.now (Ok text.items)) }
    ensures refused { IfErr result (StopsBy (sim_texts (named_sim arguments.now) bytes.now file.now)) }
{
    let design = read_module(alloc, arguments.design, bytes)?;
    let rows = rows_of(alloc, arguments.rows, file, &design)?;
    let text = simulate(alloc, design, rows.as_slice())?;
    Ok(text)
}
