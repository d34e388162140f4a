ghost use Rattle.std.specs.Prelude.{◌<◌, ◌^◌, Ok, length, IfOk, IfErr};
ghost use Rattle.xls_cmd.specs.Shared.Done.{IsDone, StopsBy};
ghost use Rattle.xls_cmd.specs.Shared.Events.{file_events};
ghost use Rattle.xls_cmd.specs.Shared.Step.{ExpectedBy};
ghost use Rattle.cmd_line.specs.Named.{named_ir};
ghost use Rattle.ir_tree.specs.Rules.Verified.{IsVerified};
ghost use Rattle.xls_cmd.specs.Lowered.Commands.{GivesText, ir_files, ir_loaded, ir_of_design};

use crate::lowered::source::lower_text;
use crate::opt::written;
use crate::shared::{Refusal, load};
use cmd_line::Ir;
use ir_tree::Package;
use std::alloc::{AllocError, Global};
use xb_io::Files;

/// `ir FILE [--top NAME]`
pub fn ir_design<'a, F: Files>(
    alloc: Global,
    files: &mut F,
    arguments: Ir<&'a str>,
) -> Result<Vec<u8>, Refusal<'a>>
    ensures { let asked = named_ir arguments.entry in
        IsDone (λ text. text.items) (ExpectedBy (F.told files.old) (λ holds. ir_of_design holds asked)) (ir_files asked)
        (file_events F.asked F.faults F.taken files.old files.new) result }
{
    let design = load(alloc, files, arguments.design)?;
    ir_loaded(alloc, &arguments, &design)
}

/// What `ir` gives once the file is loaded.
fn ir_loaded<'a>(
    alloc: Global,
    arguments: &Ir<&'a str>,
    bytes: &[u8],
) -> Result<Vec<u8>, Refusal<'a>>
    requires { length bytes.now < 2 ^ 32 }
    ensures gives { IfOk result (λ text. ir_loaded (named_ir arguments.now) bytes.now (Ok text.items)) }
    ensures refused { IfErr result (StopsBy (ir_loaded (named_ir arguments.now) bytes.now)) }
{
    let ir = lower_text(alloc, arguments.design, arguments.top, bytes)?;
    let text = text_of(alloc, &ir)?;
    Ok(text)
}

/// The text of a package.
fn text_of(alloc: Global, ir: &Package) -> Result<Vec<u8>, AllocError>
    requires { IsVerified ir.now }
    ensures { IfOk result (λ text. GivesText ir.now (Ok text.items)) }
{
    let text = written(alloc, ir)?;
    Ok(text)
}
