//! What holds of DSLX's grammar: of its names, and the laws of `base::grammar`, each the contract of a
//! function that makes one call.

ghost use Rattle.std.specs.Prelude.{◌≡◌, ℕ, ◌*◌, ◌≤◌, List, length, map};
ghost use Rattle.base.specs.Grammar.Derivation.{IsBeginning, IsDerivation};
ghost use Rattle.base.specs.Grammar.Syntax.{AreInOrder};
ghost use Rattle.dslx_token.specs.Rules.Dslx.{dslx};
ghost use Rattle.dslx_token.specs.Rules.Rules.{kinds, named_rules, nonterminals};

use crate::rules::reader::grammar;

/// Different kinds of token have different numbers, and so have the nonterminals; the start is number 0. The
/// name of a production stands for the index of its rule.
pub fn names()
    ensures kinds { AreInOrder kinds }
    ensures nonterminals { AreInOrder nonterminals }
    ensures productions { AreInOrder (map (λ r. r.number) named_rules) }
{}

/// A list of tokens has at most one derivation.
pub fn one_derivation()
    ensures { (ps qs ts : List ℕ) → IsDerivation dslx ps ts → IsDerivation dslx qs ts → ps ≡ qs }
{
    base::grammar::one_derivation(&grammar());
}

/// At most one list of productions leads to a prefix.
pub fn one_beginning()
    ensures { (ps qs ts : List ℕ) → IsBeginning dslx ps ts → IsBeginning dslx qs ts → ps ≡ qs }
{
    base::grammar::one_beginning(&grammar());
}

/// A derivation has at most 32 productions for each token.
pub fn linear_derivations()
    ensures { (ps ts : List ℕ) → IsDerivation dslx ps ts → length ps ≤ 32 * length ts }
{
    base::grammar::linear_derivations(&grammar());
}
