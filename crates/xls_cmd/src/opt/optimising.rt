//! The step that optimises.

ghost use Rattle.std.specs.Prelude.{◌≡◌, ◌<◌, ◌^◌, Ok, length, IfOk};
ghost use Rattle.ir_tree.specs.Rules.Verified.{IsVerified};
ghost use Rattle.ir_text.specs.Printer.Lines.{package_text};
ghost use Rattle.ir_text.specs.Parser.Texts.{GivesPackage};
ghost use Rattle.xls_cmd.specs.Opt.Commands.{GivesOptimised};

use ir_passes::optimise;
use ir_text::printer::print_ir;
use ir_text::round_trip::{in_range, printed_packages_are_read};
use ir_tree::Package;
use std::alloc::{AllocError, Global};

/// The text of the package after all passes.
pub fn optimised(alloc: Global, ir: Package) -> Result<Vec<u8>, AllocError>
    requires { IsVerified ir }
    ensures { IfOk result (λ text. GivesOptimised ir (Ok text.items)) }
{
    let new = optimise(alloc, ir)?;
    let text = written(alloc, &new)?;
    Ok(text)
}

/// What is written of a package, which is read again as that package.
pub fn written(alloc: Global, ir: &Package) -> Result<Vec<u8>, AllocError>
    requires { IsVerified ir.now }
    ensures text { IfOk result (λ text. text.items ≡ package_text ir.now) }
    ensures again { IfOk result (λ text. length text.items < 2 ^ 32 → GivesPackage text.items (Ok ir.now)) }
{
    printed_packages_are_read();
    in_range(ir);
    let text = print_ir(alloc, ir)?;
    Ok(text.into_bytes())
}
