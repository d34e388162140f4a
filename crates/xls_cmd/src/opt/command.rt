ghost use Rattle.std.specs.Prelude.{◌<◌, ◌^◌, Ok, length, IfOk, IfErr};
ghost use Rattle.xls_cmd.specs.Shared.Done.{IsDone, StopsBy};
ghost use Rattle.xls_cmd.specs.Shared.Events.{file_events};
ghost use Rattle.xls_cmd.specs.Shared.Step.{ExpectedBy};
ghost use Rattle.cmd_line.specs.Named.{named_opt};
ghost use Rattle.xls_cmd.specs.Opt.Commands.{opt, opt_files, opt_loaded};

use crate::lowered::package_by;
use crate::opt::optimising::optimised;
use crate::shared::{Refusal, load};
use cmd_line::Opt;
use std::alloc::Global;
use xb_io::Files;

/// `opt FILE [--from F] [--top NAME]`
pub fn opt_file<'a, F: Files>(
    alloc: Global,
    files: &mut F,
    arguments: Opt<&'a str>,
) -> Result<Vec<u8>, Refusal<'a>>
    ensures { let asked = named_opt arguments.entry in
        IsDone (λ text. text.items) (ExpectedBy (F.told files.old) (λ holds. opt holds asked)) (opt_files asked)
        (file_events F.asked F.faults F.taken files.old files.new) result }
{
    let design = load(alloc, files, arguments.design)?;
    opt_loaded(alloc, &arguments, &design)
}

/// What `opt` gives once the file is loaded.
fn opt_loaded<'a>(
    alloc: Global,
    arguments: &Opt<&'a str>,
    bytes: &[u8],
) -> Result<Vec<u8>, Refusal<'a>>
    requires { length bytes.now < 2 ^ 32 }
    ensures gives { IfOk result (λ text. opt_loaded (named_opt arguments.now) bytes.now (Ok text.items)) }
    ensures refused { IfErr result (StopsBy (opt_loaded (named_opt arguments.now) bytes.now)) }
{
    let ir = package_by(
        alloc,
        arguments.source,
        arguments.design,
        arguments.top,
        bytes,
    )?;
    let text = optimised(alloc, ir)?;
    Ok(text)
}
