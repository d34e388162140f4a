//! The Verilog text of a package.

ghost use Rattle.std.specs.Prelude.{◌≡◌, ◌⊎◌, IfOk, IfErr, string_bytes};
ghost use Rattle.ir_tree.specs.Rules.Verified.{IsVerified};
ghost use Rattle.pipe_schedule.specs.declared.schedule.Demands.{Demands as SomeDemands};
ghost use Rattle.pipe_schedule.specs.Packages.{AreSchedules};
ghost use Rattle.vlog_text.specs.Printer.ModuleText.{module_text};
ghost use Rattle.xb_span.specs.declared.limit.Limit.{Limit as SomeLimit};
ghost use Rattle.block_verilog.specs.declared.build.BuildError.TheVariants.{Over, OutOfMemory};
ghost use Rattle.block_verilog.specs.Modules.{HaveSlots, IsFirstTooDeep, NoneTooDeep};
ghost use Rattle.block_verilog.specs.Texts.{IsVerilogOf};

use crate::build::{BuildError, build};
use ir_tree::Package;
use pipe_schedule::Schedule;
use std::alloc::Global;
use vlog_text::printer::print_v;
use vlog_text::round_trip::printed_modules_read_back;
use vlog_tree::VModule;

/// The Verilog text of a verified package, a schedule for each proc and a depth for each channel, or the first FIFO that is too deep.
pub fn print_package(
    alloc: Global,
    ir: &Package,
    schedules: &[Schedule],
    depths: &[u32],
) -> Result<String, BuildError>
    requires verified { IsVerified ir.now }
    requires deep { HaveSlots ir.now.channels depths.now }
    ensures shallow { IfOk result (λ text. NoneTooDeep ir.now.channels depths.now) }
    ensures verilog { IfOk result (λ text. (demands : SomeDemands) → AreSchedules ir.now.procs demands schedules.now → IsVerilogOf ir.now schedules.now depths.now (string_bytes text)) }
    ensures refused { IfErr result (λ e. (e ≡ OutOfMemory) ⊎ ((limit : SomeLimit) × IsFirstTooDeep ir.now.channels depths.now limit × (e ≡ Over limit))) }
{
    printed_modules_read_back();
    match build(alloc, ir, schedules, depths) {
        Ok(design) => printed(alloc, &design),
        Err(error) => Err(error),
    }
}

/// The text of a module.
fn printed(alloc: Global, design: &VModule) -> Result<String, BuildError>
    ensures text { IfOk result (λ text. string_bytes text ≡ module_text design.now) }
    ensures refused { IfErr result (λ e. e ≡ OutOfMemory) }
{
    Ok(print_v(alloc, design)?)
}
