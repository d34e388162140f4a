//! The line of a package's module.

ghost use Rattle.std.specs.Prelude.{◌≡◌, ◌<◌, ◌*◌, ◌^◌, ℕ, Ok, [], get_or, IfErr, IfOk};
ghost use Rattle.block_verilog.specs.Modules.{AreScheduled};
ghost use Rattle.dslx_tree.specs.declared.item.Module.{Module};
ghost use Rattle.ir_tree.specs.Rules.Verified.{IsVerified};
ghost use Rattle.ir_tree.specs.declared.package.Package.{Package as SomePackage};
ghost use Rattle.vlog_tree.specs.WellFormed.{CanRun};
ghost use Rattle.xls_cmd.specs.Gen.Commands.{BuildsModule, fed_rows, gen_demands, most_stages};
ghost use Rattle.xls_cmd.specs.Gen.Inner.{StepsOfOptimised, TellsFed, TellsHardware};
ghost use Rattle.xls_cmd.specs.Shared.Done.{StopsBy};

use crate::design::depths;
use crate::generate::running::line_of;
use crate::schedule::schedules_of;
use crate::shared::Refusal;
use block_verilog::build::{BuildError, build};
use ir_tree::{Package, net_of};
use net_core::Inputs;
use pipe_schedule::{Demands, Schedule};
use std::alloc::{AllocError, Global};
use vlog_tree::VModule;
use xb_bits::Bits;
use xb_span::ReadError;
use xb_value::at;
use xls_gen::feed::{can_be_fed, feed};
use xls_gen::level::Level;

/// The module's channels `a`, at which it is fed, and `b`, at which its words are taken.
const INPUT: usize = 0;

const OUTPUT: usize = 1;

/// The line of the module of a package, whose run has so many events.
pub fn hardware_line<'a>(
    alloc: Global,
    ir: &Package,
    inputs: &Inputs,
    events: u64,
) -> Result<Vec<u8>, Refusal<'a>>
    requires { IsVerified ir.now }
    ensures tells { IfOk result (λ line. TellsHardware ir.now inputs.now.words events line.items) }
    ensures refused { IfErr result (λ refused. (m : Module) (before : SomePackage) → StopsBy (StepsOfOptimised inputs.now.words m before ir.now) refused) }
{
    let schedules = schedules_of(alloc, ir, gen_demands())?;
    let rows = rows_of(schedules.as_slice(), events)?;
    let design = built(alloc, ir, schedules.as_slice())?;
    let line = fed_line(alloc, design, inputs, rows)?;
    Ok(line)
}

/// What schedules must keep to.
fn gen_demands() -> Demands
    ensures { result ≡ gen_demands }
{
    Demands {
        clock: 1000,
        stages: 64,
        interval: 64,
    }
}

/// The module of a package with these schedules, whose FIFOs are as deep as its channels, or the refusal of the first that is too deep.
fn built<'a>(alloc: Global, ir: &Package, schedules: &[Schedule]) -> Result<VModule, Refusal<'a>>
    requires { IsVerified ir.now }
    ensures gives { IfOk result (λ design. (clock : ℕ) → AreScheduled clock ir.now.procs schedules.now → BuildsModule ir.now schedules.now (Ok design)) }
    ensures runs { IfOk result (λ design. (clock : ℕ) → AreScheduled clock ir.now.procs schedules.now → CanRun design) }
    ensures refused { IfErr result (StopsBy (BuildsModule ir.now schedules.now)) }
{
    let net = net_of(alloc, ir)?;
    let depths = depths(alloc, &net, None)?;
    match build(alloc, ir, schedules, depths.as_slice()) {
        Ok(design) => Ok(design),
        Err(BuildError::Over(limit)) => Err(Refusal::of_text("gen", ReadError::Over(limit))),
        Err(BuildError::OutOfMemory) => Err(Refusal::OutOfMemory),
    }
}

/// For how many rows the module is fed. More than 2^63 count as want of memory does.
fn rows_of(schedules: &[Schedule], events: u64) -> Result<u64, AllocError>
    ensures rows { IfOk result (λ rows. rows ≡ fed_rows schedules.now events) }
    ensures few { IfOk result (λ rows. rows < 2 ^ 63) }
{
    let each = u64::from(most_stages(schedules).max(1)) + 2;
    match events.checked_add(1) {
        Some(turns) => product(each, turns),
        None => Err(AllocError),
    }
}

/// The product of two counts, if it is below 2^63.
fn product(first: u64, second: u64) -> Result<u64, AllocError>
    ensures product { IfOk result (λ rows. rows ≡ first * second) }
    ensures few { IfOk result (λ rows. rows < 2 ^ 63) }
{
    match first.checked_mul(second) {
        Some(rows) => {
            if rows < 1 << 63 {
                Ok(rows)
            } else {
                Err(AllocError)
            }
        }
        None => Err(AllocError),
    }
}

/// The greatest number of stages, 0 where there is no proc.
fn most_stages(schedules: &[Schedule]) -> u32
    ensures { result ≡ most_stages schedules.now }
{
    let mut most = 0u32;
    'schedules: for schedule in schedules {
        most = most.max(schedule.stages);
    }
    most
}

/// The line of the words that move at `b` while a module is fed those of `a`, for so many rows. None is known that can't be fed; one that couldn't
/// would count as one for which memory is wanting.
fn fed_line(
    alloc: Global,
    design: VModule,
    inputs: &Inputs,
    rows: u64,
) -> Result<Vec<u8>, AllocError>
    requires runs { CanRun design }
    requires few { rows < 2 ^ 63 }
    ensures { IfOk result (λ line. TellsFed design inputs.now.words rows line.items) }
{
    let words = words_of_a(inputs);
    if can_be_fed(&design, INPUT, OUTPUT, words) {
        let moved = feed(alloc, design, INPUT, OUTPUT, words, rows)?;
        line_of(alloc, Level::Verilog, moved.as_slice())
    } else {
        Err(AllocError)
    }
}

/// The words of channel `a`.
fn words_of_a(inputs: &Inputs) -> &[Bits]
    ensures { result.now ≡ get_or inputs.now.words 0 [] }
{
    match at(inputs.words.as_slice(), 0) {
        Some(words) => words.as_slice(),
        None => &[],
    }
}
