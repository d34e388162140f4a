ghost use Rattle.std.specs.Prelude.{◌<◌, ◌≤◌, ◌^◌, Ok, length, IfOk, IfErr};
ghost use Rattle.ir_tree.specs.Rules.Verified.{IsVerified};
ghost use Rattle.xls_cmd.specs.Shared.Done.{IsDone, StopsBy};
ghost use Rattle.xls_cmd.specs.Shared.Events.{file_events};
ghost use Rattle.xls_cmd.specs.Shared.Step.{ExpectedBy};
ghost use Rattle.cmd_line.specs.Named.{named_verilog};
ghost use Rattle.xls_cmd.specs.Verilog.Commands.{GivesVerilog, verilog, verilog_files, verilog_loaded};

use crate::lowered::package_to_schedule;
use crate::schedule::{demands_of, schedules_of};
use crate::shared::{Refusal, load};
use crate::verilog::printing::{package_depths, printed};
use cmd_line::Verilog;
use ir_tree::Package;
use std::alloc::Global;
use xb_io::Files;

/// `verilog FILE --clock PS [--stages N] [--ii N] [--depth D] [--from F] [--top NAME]`
pub fn verilog_file<'a, F: Files>(
    alloc: Global,
    files: &mut F,
    arguments: Verilog<&'a str>,
) -> Result<Vec<u8>, Refusal<'a>>
    requires { 1 ≤ arguments.timing.stages }
    ensures { let asked = named_verilog arguments.entry in
        IsDone (λ text. text.items) (ExpectedBy (F.told files.old) (λ holds. verilog holds asked)) (verilog_files asked)
        (file_events F.asked F.faults F.taken files.old files.new) result }
{
    let design = load(alloc, files, arguments.design)?;
    verilog_loaded(alloc, &arguments, &design)
}

/// What `verilog` gives once the file is loaded.
fn verilog_loaded<'a>(
    alloc: Global,
    arguments: &Verilog<&'a str>,
    bytes: &[u8],
) -> Result<Vec<u8>, Refusal<'a>>
    requires short { length bytes.now < 2 ^ 32 }
    requires some { 1 ≤ arguments.now.timing.stages }
    ensures gives { IfOk result (λ text. verilog_loaded (named_verilog arguments.now) bytes.now (Ok text.items)) }
    ensures refused { IfErr result (StopsBy (verilog_loaded (named_verilog arguments.now) bytes.now)) }
{
    let ir = package_to_schedule(
        alloc,
        arguments.source,
        arguments.design,
        arguments.top,
        bytes,
    )?;
    verilog_of(alloc, arguments, &ir)
}

/// What `verilog` gives of a package.
fn verilog_of<'a>(
    alloc: Global,
    arguments: &Verilog<&'a str>,
    ir: &Package,
) -> Result<Vec<u8>, Refusal<'a>>
    requires verified { IsVerified ir.now }
    requires some { 1 ≤ arguments.now.timing.stages }
    ensures gives { IfOk result (λ text. GivesVerilog (named_verilog arguments.now) ir.now (Ok text.items)) }
    ensures refused { IfErr result (StopsBy (GivesVerilog (named_verilog arguments.now) ir.now)) }
{
    let depths = package_depths(alloc, ir, arguments.depth)?;
    let schedules = schedules_of(alloc, ir, demands_of(arguments.timing))?;
    let name = arguments.design;
    printed(alloc, name, ir, schedules.as_slice(), depths.as_slice())
}
