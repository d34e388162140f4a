ghost use Rattle.std.specs.Prelude.{◌≡◌, ◌<◌, ◌^◌, ◌⊎◌, Ok, Err, length};
ghost use Rattle.ir_tree.specs.Rules.Verified.{IsVerified};
ghost use Rattle.ir_text.specs.Printer.Lines.{package_text};
ghost use Rattle.xb_span.specs.declared.read_error.ReadError.TheVariants.{OutOfMemory};

use crate::parser::read_ir;
use crate::printer::print_ir;
use crate::round_trip::laws::printed_packages_are_read;
use crate::round_trip::range::in_range;
use ir_tree::Package;
use std::alloc::Global;
use xb_span::ReadError;

/// Prints a package and reads it again: that is the package, unless memory ran out.
pub fn read_again(alloc: Global, ir: &Package) -> Result<Package, ReadError>
    requires verified { IsVerified ir.now }
    requires short { length (package_text ir.now) < 2 ^ 32 }
    ensures { (result ≡ Ok ir.now) ⊎ (result ≡ Err OutOfMemory) }
{
    printed_packages_are_read();
    in_range(ir);
    match print_ir(alloc, ir) {
        Ok(text) => read_ir(alloc, text.as_str()),
        Err(_) => Err(ReadError::OutOfMemory),
    }
}
