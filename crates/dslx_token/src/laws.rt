//! Laws, each the contract of a function that does nothing.

ghost use Rattle.std.specs.Prelude.{◌≡◌, ℕ, List};
ghost use Rattle.dslx_token.specs.Lexeme.{Lexeme};
ghost use Rattle.dslx_token.specs.Tokens.{IsFirstOdd, Tokens};

/// A text has at most one list of tokens, at most one first character that begins no token, and not both.
pub fn one_reading()
    ensures one { (text : List ℕ) (ls ms : List Lexeme) → Tokens text ls → Tokens text ms → ls ≡ ms }
    ensures place { (text : List ℕ) (i j : ℕ) → IsFirstOdd text i → IsFirstOdd text j → i ≡ j }
    ensures either { (text : List ℕ) (ls : List Lexeme) (at : ℕ) → Tokens text ls → IsFirstOdd text at → ⊥ }
{}
