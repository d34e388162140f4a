//! Laws, each the contract of a function that calls the laws below it.

ghost use Rattle.std.specs.Prelude.{◌≡◌, ℕ, List, Option, Result};
ghost use Rattle.dslx_tree.specs.declared.item.Module.{Module};
ghost use Rattle.xb_span.specs.declared.read_error.ReadError.{ReadError};
ghost use Rattle.dslx.specs.Texts.{GivesTree};

/// A text gives one tree, or is refused for one cause.
pub fn one_module()
    ensures { (text : List ℕ) (top : Option (List ℕ)) (a b : Result Module ReadError) → GivesTree text top a → GivesTree text top b → a ≡ b }
{
    dslx_parser::one_reading();
}
