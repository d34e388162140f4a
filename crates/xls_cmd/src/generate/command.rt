ghost use Rattle.std.specs.Prelude.{◌≡◌, ◌≤◌, ◌++◌, Ok, IfErr, IfOk};
ghost use Rattle.xls_cmd.specs.Gen.Commands.{gen};
ghost use Rattle.xls_cmd.specs.Shared.Done.{StopsBy};

use crate::generate::packages::{PackageLines, package_lines};
use crate::generate::source::{Made, SourceLines, lowered, made_design, source_lines};
use crate::shared::Refusal;
use cmd_line::Gen;
use std::alloc::{AllocError, Global};
use std::sync::Wait;
use std::thread::Threads;
use xb_io::Gate;

/// `gen --seed S --procs K`: a line for each level of the compiler, of the words that come out of the design there.
pub fn gen_levels<'a, R: Threads + Wait + Sync, G: Gate + Sync>(
    rt: &R,
    alloc: Global,
    arguments: Gen,
    gate: &G,
) -> Result<Vec<u8>, Refusal<'a>>
    requires { 1 ≤ arguments.procs }
    ensures gives { IfOk result (λ text. gen arguments (Ok text.items)) }
    ensures refused { IfErr result (StopsBy (gen arguments)) }
{
    let made = made_design(alloc, arguments)?;
    let Made { design, inputs } = made;
    let source = source_lines(rt, alloc, &design, &inputs, gate)?;
    let ir = lowered(alloc, design)?;
    let lines = package_lines(alloc, ir, &inputs)?;
    let text = joined(source, lines)?;
    Ok(text)
}

/// The five lines, in their order.
fn joined(source: SourceLines, made: PackageLines) -> Result<Vec<u8>, AllocError>
    ensures { IfOk result (λ text. text.items ≡ source.dslx.items ++ made.ir.items ++ made.opt.items ++ source.threads.items ++ made.verilog.items) }
{
    let mut text = source.dslx;
    text.extend_from_slice(made.ir.as_slice())?;
    text.extend_from_slice(made.opt.as_slice())?;
    text.extend_from_slice(source.threads.as_slice())?;
    text.extend_from_slice(made.verilog.as_slice())?;
    Ok(text)
}
