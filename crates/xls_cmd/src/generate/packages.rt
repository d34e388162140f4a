//! The lines of a package.

ghost use Rattle.std.specs.Prelude.{IfErr, IfOk};
ghost use Rattle.dslx_tree.specs.declared.item.Module.{Module};
ghost use Rattle.ir_tree.specs.Networks.{behaviors_of, network_of};
ghost use Rattle.ir_tree.specs.Rules.Verified.{IsVerified};
ghost use Rattle.net_core.specs.WellFormed.{IsInputs};
ghost use Rattle.xls_cmd.specs.Gen.Inner.{StepsOfPackage, TellsPackage, TellsRun};
ghost use Rattle.xls_cmd.specs.Shared.Done.{StopsBy};

use crate::generate::hardware::hardware_line;
use crate::generate::running::{Told, told_alone};
use crate::shared::Refusal;
use ir_eval::bodies_of;
use ir_passes::optimise;
use ir_tree::{Package, net_of};
use net_core::Inputs;
use std::alloc::{AllocError, Global};
use xls_gen::level::Level;

/// The lines of a package: of its run, of that of the optimised package, and of the module of that.
#[derive(Drop)]
pub struct PackageLines {
    pub ir: Vec<u8>,
    pub opt: Vec<u8>,
    pub verilog: Vec<u8>,
}

/// The lines of a package whose network takes these words.
pub fn package_lines<'a>(
    alloc: Global,
    ir: Package,
    inputs: &Inputs,
) -> Result<PackageLines, Refusal<'a>>
    requires verified { IsVerified ir }
    requires inputs { IsInputs (network_of ir) inputs.now.words }
    ensures tells { IfOk result (λ lines. TellsPackage ir inputs.now.words lines) }
    ensures refused { IfErr result (λ refused. (m : Module) → StopsBy (StepsOfPackage inputs.now.words m ir) refused) }
{
    let lowered = told_of(alloc, Level::Ir, &ir, inputs)?;
    let new = optimise(alloc, ir)?;
    let same = told_of(alloc, Level::Opt, &new, inputs)?;
    let verilog = hardware_line(alloc, &new, inputs, same.events)?;
    Ok(PackageLines {
        ir: lowered.line,
        opt: same.line,
        verilog,
    })
}

/// What is told of the run of a package.
fn told_of(alloc: Global, level: Level, ir: &Package, inputs: &Inputs) -> Result<Told, AllocError>
    requires verified { IsVerified ir.now }
    requires inputs { IsInputs (network_of ir.now) inputs.now.words }
    ensures { IfOk result (λ told. TellsRun level inputs.now.words (network_of ir.now) (behaviors_of ir.now) told) }
{
    let net = net_of(alloc, ir)?;
    let bodies = bodies_of(alloc, ir)?;
    told_alone(alloc, level, &net, bodies.as_slice(), inputs)
}
