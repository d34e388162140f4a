//! The step that prints a package's module.

ghost use Rattle.std.specs.Prelude.{◌≡◌, Ok, IfOk, IfErr};
ghost use Rattle.ir_tree.specs.Networks.{network_of};
ghost use Rattle.ir_tree.specs.Rules.Verified.{IsVerified};
ghost use Rattle.block_verilog.specs.Modules.{HaveSlots};
ghost use Rattle.pipe_schedule.specs.declared.schedule.Demands.{Demands as SomeDemands};
ghost use Rattle.pipe_schedule.specs.Packages.{AreSchedules};
ghost use Rattle.xls_cmd.specs.Design.Written.{depths_by};
ghost use Rattle.xls_cmd.specs.Shared.Done.{StopsBy};
ghost use Rattle.xls_cmd.specs.Verilog.Commands.{PrintsModule};

use crate::design::depths;
use crate::shared::Refusal;
use block_verilog::build::BuildError;
use block_verilog::printing::print_package;
use ir_tree::{Package, net_of};
use pipe_schedule::Schedule;
use std::alloc::{AllocError, Global};
use xb_span::ReadError;

/// The depth that each channel of a package has, 1 at least: where the arguments have one, that is the depth of inner channels.
pub fn package_depths(
    alloc: Global,
    ir: &Package,
    arguments: Option<u32>,
) -> Result<Vec<u32>, AllocError>
    ensures depths { IfOk result (λ depths. depths.items ≡ depths_by arguments (network_of ir.now)) }
    ensures deep { IfOk result (λ depths. HaveSlots ir.now.channels depths.items) }
{
    let net = net_of(alloc, ir)?;
    depths(alloc, &net, arguments)
}

/// The text of a package with these schedules and depths, or the refusal of the first FIFO that is too deep.
pub fn printed<'a>(
    alloc: Global,
    name: &'a str,
    ir: &Package,
    schedules: &[Schedule],
    depths: &[u32],
) -> Result<Vec<u8>, Refusal<'a>>
    requires verified { IsVerified ir.now }
    requires deep { HaveSlots ir.now.channels depths.now }
    ensures gives { IfOk result (λ text. (demands : SomeDemands) → AreSchedules ir.now.procs demands schedules.now → PrintsModule name.entry.now ir.now depths.now schedules.now (Ok text.items)) }
    ensures refused { IfErr result (StopsBy (PrintsModule name.entry.now ir.now depths.now schedules.now)) }
{
    match print_package(alloc, ir, schedules, depths) {
        Ok(text) => Ok(text.into_bytes()),
        Err(BuildError::Over(limit)) => Err(Refusal::of_text(name, ReadError::Over(limit))),
        Err(BuildError::OutOfMemory) => Err(Refusal::OutOfMemory),
    }
}
