//! What holds of the grammar: of its names, and a law of `base::grammar`.

ghost use Rattle.std.specs.Prelude.{◌≡◌, ℕ, List, map};
ghost use Rattle.base.specs.Grammar.Derivation.{IsDerivation};
ghost use Rattle.base.specs.Grammar.Syntax.{AreInOrder};
ghost use Rattle.ir_builder.specs.Token.Rules.Ir.{ir};
ghost use Rattle.ir_builder.specs.Token.Rules.Rules.{kinds, named_rules, nonterminals};

use crate::token::rules::reader::grammar;

/// Different kinds of token have different numbers, and so have the nonterminals; the start is number 0. The name of a
/// production stands for the index of its rule.
pub fn names()
    ensures kinds { AreInOrder kinds }
    ensures nonterminals { AreInOrder nonterminals }
    ensures productions { AreInOrder (map (λ r. r.number) named_rules) }
{}

/// A list of tokens has at most one derivation.
pub fn one_derivation()
    ensures { (ps qs ts : List ℕ) → IsDerivation ir ps ts → IsDerivation ir qs ts → ps ≡ qs }
{
    base::grammar::one_derivation(&grammar());
}
