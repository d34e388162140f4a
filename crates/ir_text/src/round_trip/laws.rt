//! The law, the contract of a function that calls a law below it.

ghost use Rattle.std.specs.Prelude.{◌≡◌, ◌<◌, ◌^◌, ℕ, List, Ok, length};
ghost use Rattle.ir_tree.specs.declared.package.Package.{Package};
ghost use Rattle.ir_tree.specs.Rules.Verified.{IsVerified};
ghost use Rattle.ir_text.specs.Printer.Lines.{package_text};
ghost use Rattle.ir_text.specs.Parser.Texts.{GivesPackage};
ghost use Rattle.ir_text.specs.RoundTrip.InRange.{IsInRange};

use crate::parser::one_package;

/// A text shorter than 2^32 bytes of a package that breaks no rule gives that package: `print_ir` writes this text, and `read_ir` answers
/// what a text gives. So it is of each package that was read (`again`), and different packages have different texts (`apart`). That numbers are
/// in range is so of each package of the code ([`in_range`](crate::round_trip::in_range)).
pub fn printed_packages_are_read()
    ensures read { (ir : Package) → IsVerified ir → IsInRange ir → length (package_text ir) < 2 ^ 32 → GivesPackage (package_text ir) (Ok ir) }
    ensures again { (text : List ℕ) (ir : Package) → GivesPackage text (Ok ir) → length (package_text ir) < 2 ^ 32 → GivesPackage (package_text ir) (Ok ir) }
    ensures apart { (p q : Package) → IsVerified p → IsInRange p → IsVerified q → IsInRange q → length (package_text p) < 2 ^ 32 → package_text p ≡ package_text q → p ≡ q }
{
    one_package();
}
