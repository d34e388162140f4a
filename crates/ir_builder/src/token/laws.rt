//! Laws, each the contract of a function that does nothing.

ghost use Rattle.std.specs.Prelude.{◌≡◌, ℕ, List};
ghost use Rattle.dslx_token.specs.Lexeme.{Lexeme};
ghost use Rattle.ir_builder.specs.Token.Tokens.{AreIrTokens, IsCutOffAt};

/// A text has at most one list of tokens, at most one first character that begins no token, and not both.
pub fn one_list_of_tokens()
    ensures one { (text : List ℕ) (ls ms : List Lexeme) → AreIrTokens text ls → AreIrTokens text ms → ls ≡ ms }
    ensures place { (text : List ℕ) (i j : ℕ) → IsCutOffAt text text i → IsCutOffAt text text j → i ≡ j }
    ensures either { (text : List ℕ) (ls : List Lexeme) (at : ℕ) → AreIrTokens text ls → IsCutOffAt text text at → ⊥ }
{}
