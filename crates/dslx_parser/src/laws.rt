//! Laws, each the contract of a function that calls the laws below it.

ghost use Rattle.std.specs.Prelude.{◌≡◌, ℕ, List, Result};
ghost use Rattle.dslx_token.specs.Lexeme.{Lexeme};
ghost use Rattle.dslx_tree.specs.declared.item.Module.{Module};
ghost use Rattle.dslx_parser.specs.Reads.{TextGives, TokensGive};
ghost use Rattle.xb_span.specs.declared.read_error.ReadError.{ReadError};

/// Tokens have one tree, or are refused for one cause, and not both; so is it of texts.
pub fn one_reading()
    ensures of_tokens { (ls : List Lexeme) (a b : Result Module ReadError) → TokensGive ls a → TokensGive ls b → a ≡ b }
    ensures of_texts { (text : List ℕ) (a b : Result Module ReadError) → TextGives text a → TextGives text b → a ≡ b }
{
    dslx_token::rules::one_derivation();
    crate::built::built_is_made();
    base::grammar::one_tree();
    dslx_token::one_reading();
}
