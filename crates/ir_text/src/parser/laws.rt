//! Laws, each the contract of a function that calls the laws below it.

ghost use Rattle.std.specs.Prelude.{◌≡◌, ℕ, List, Result};
ghost use Rattle.ir_tree.specs.declared.package.Package.{Package};
ghost use Rattle.ir_text.specs.Parser.Texts.{GivesPackage};
ghost use Rattle.xb_span.specs.declared.read_error.ReadError.{ReadError};

/// A text has one package, or is refused for one cause, and not both.
pub fn one_package()
    ensures { (text : List ℕ) (a b : Result Package ReadError) → GivesPackage text a → GivesPackage text b → a ≡ b }
{
    ir_builder::token::rules::one_derivation();
    base::grammar::one_tree();
    ir_builder::token::one_list_of_tokens();
}
