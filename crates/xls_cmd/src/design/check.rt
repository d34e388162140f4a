ghost use Rattle.std.specs.Prelude.{◌≡◌, ◌<◌, ◌^◌, Ok, length, IfOk, IfErr};
ghost use Rattle.xls_cmd.specs.Shared.Done.{IsDone, StopsBy};
ghost use Rattle.xls_cmd.specs.Shared.Events.{file_events};
ghost use Rattle.xls_cmd.specs.Shared.Step.{ExpectedBy};
ghost use Rattle.cmd_line.specs.Named.{named_check};
ghost use Rattle.xls_cmd.specs.Design.Commands.{check, check_files, check_text};
ghost use Rattle.xls_cmd.specs.Design.Written.{accepted_size};

use crate::design::source::check_module;
use crate::shared::{Refusal, load};
use cmd_line::Check;
use dslx::NetworkSize;
use std::alloc::{AllocError, Global};
use xb_io::Files;

/// `check FILE [--top NAME]`
pub fn check_design<'a, F: Files>(
    alloc: Global,
    files: &mut F,
    arguments: Check<&'a str>,
) -> Result<Vec<u8>, Refusal<'a>>
    ensures { let asked = named_check arguments.entry in
        IsDone (λ text. text.items) (ExpectedBy (F.told files.old) (λ holds. check holds asked)) (check_files asked)
        (file_events F.asked F.faults F.taken files.old files.new) result }
{
    let design = load(alloc, files, arguments.design)?;
    check_loaded(alloc, &arguments, &design)
}

/// What `check` gives once the file is loaded.
fn check_loaded<'a>(
    alloc: Global,
    arguments: &Check<&'a str>,
    bytes: &[u8],
) -> Result<Vec<u8>, Refusal<'a>>
    requires { length bytes.now < 2 ^ 32 }
    ensures gives { IfOk result (λ text. check_text (named_check arguments.now) bytes.now (Ok text.items)) }
    ensures refused { IfErr result (StopsBy (check_text (named_check arguments.now) bytes.now)) }
{
    let size = check_module(alloc, arguments.design, arguments.top, bytes)?;
    let text = accepted(alloc, size)?;
    Ok(text)
}

/// What is written of a network that was accepted.
fn accepted(alloc: Global, size: NetworkSize) -> Result<Vec<u8>, AllocError>
    ensures { IfOk result (λ text. text.items ≡ accepted_size size.procs size.channels) }
{
    let procs = size.procs;
    let channels = size.channels;
    let text = format!(in alloc; "ok procs {procs} channels {channels}\n")?;
    Ok(text.into_bytes())
}
