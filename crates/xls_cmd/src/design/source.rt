//! The steps that read files.

ghost use Rattle.std.specs.Prelude.{◌<◌, ◌^◌, Ok, length, IfOk, IfErr};
ghost use Rattle.std.specs.Option.{option_copied};
ghost use Rattle.net_core.specs.WellFormed.{IsNet, IsInputs};
ghost use Rattle.xls_cmd.specs.Shared.Done.{StopsBy};
ghost use Rattle.xls_cmd.specs.Design.Commands.{ReadsInputs, ReadsModule};
ghost use Rattle.xls_cmd.specs.Design.Inner.{IsDesignRead, IsSizeRead};

use crate::shared::{Fault, Refusal, read_text};
use chan_file::{InputError, read_inputs};
use dslx::{NetworkSize, check_text, design_of_text};
use dslx_core::Design;
use net_core::{Inputs, Net};
use std::alloc::Global;

/// How many procs and channels the network of a file's design has. Its top is the proc of this name, or the last one.
pub fn check_module<'a>(
    alloc: Global,
    name: &'a str,
    top: Option<&str>,
    bytes: &[u8],
) -> Result<NetworkSize, Refusal<'a>>
    requires { length bytes.now < 2 ^ 32 }
    ensures reads { IfOk result (λ size. IsSizeRead name.entry.now (option_copied top.entry) bytes.now size) }
    ensures refused { IfErr result (StopsBy (ReadsModule name.entry.now (option_copied top.entry) bytes.now)) }
{
    let text = read_text(name, bytes)?;
    match check_text(alloc, text, top) {
        Ok(size) => Ok(size),
        Err(error) => Err(Refusal::of_text(name, error)),
    }
}

/// The checked text of a file's design. Its top is the proc of this name, or the last one.
pub fn read_design<'a>(
    alloc: Global,
    name: &'a str,
    top: Option<&str>,
    bytes: &[u8],
) -> Result<Design, Refusal<'a>>
    requires { length bytes.now < 2 ^ 32 }
    ensures reads { IfOk result (λ design. IsDesignRead name.entry.now (option_copied top.entry) bytes.now design) }
    ensures refused { IfErr result (StopsBy (ReadsModule name.entry.now (option_copied top.entry) bytes.now)) }
{
    let text = read_text(name, bytes)?;
    match design_of_text(alloc, text, top) {
        Ok(design) => Ok(design),
        Err(error) => Err(Refusal::of_text(name, error)),
    }
}

/// The words that a channel file says for the inputs of a network.
pub fn inputs_of<'a>(
    alloc: Global,
    name: &'a str,
    file: &[u8],
    net: &Net,
) -> Result<Inputs, Refusal<'a>>
    requires net { IsNet net.now }
    requires short { length file.now < 2 ^ 32 }
    ensures says { IfOk result (λ inputs. ReadsInputs name.entry.now file.now net.now (Ok inputs)) }
    ensures fits { IfOk result (λ inputs. IsInputs net.now inputs.words) }
    ensures refused { IfErr result (StopsBy (ReadsInputs name.entry.now file.now net.now)) }
{
    match read_inputs(alloc, file, net) {
        Ok(inputs) => Ok(inputs),
        Err(InputError::Input(cause, at)) => Err(Refusal::Fault(Fault::Input(name, cause, at))),
        Err(InputError::OutOfMemory) => Err(Refusal::OutOfMemory),
    }
}
