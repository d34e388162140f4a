//! The step that reads a package.

ghost use Rattle.std.specs.Prelude.{◌<◌, ◌^◌, Ok, length, IfOk, IfErr};
ghost use Rattle.ir_tree.specs.Rules.Verified.{IsVerified};
ghost use Rattle.xls_cmd.specs.Shared.Done.{StopsBy};
ghost use Rattle.xls_cmd.specs.Ir.Commands.{ReadsPackage};

use crate::shared::{Refusal, read_text};
use ir_text::parser::read_ir;
use ir_tree::Package;
use std::alloc::Global;

/// The package of a file's bytes.
pub fn read_package<'a>(alloc: Global, name: &'a str, bytes: &[u8]) -> Result<Package, Refusal<'a>>
    requires { length bytes.now < 2 ^ 32 }
    ensures reads { IfOk result (λ ir. ReadsPackage name.entry.now bytes.now (Ok ir)) }
    ensures verified { IfOk result (λ ir. IsVerified ir) }
    ensures refused { IfErr result (StopsBy (ReadsPackage name.entry.now bytes.now)) }
{
    let text = read_text(name, bytes)?;
    match read_ir(alloc, text) {
        Ok(ir) => Ok(ir),
        Err(error) => Err(Refusal::of_text(name, error)),
    }
}
