//! Laws, each the contract of a function that calls the laws below it.

ghost use Rattle.std.specs.Prelude.{◌≡◌, List, Result};
ghost use Rattle.dslx_token.specs.Lexeme.{Lexeme};
ghost use Rattle.vlog_text.specs.declared.builder.parsed.Parsed.{Parsed};
ghost use Rattle.vlog_text.specs.Parser.Reads.{IsParsing};
ghost use Rattle.xb_span.specs.declared.read_error.ReadError.{ReadError};

/// Tokens have one module or one refusal, and not both.
pub fn one_parsing()
    ensures { (ls : List Lexeme) (a b : Result Parsed ReadError) → IsParsing ls a → IsParsing ls b → a ≡ b }
{
    crate::token::rules::one_derivation();
    base::grammar::one_tree();
}
