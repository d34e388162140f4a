//! Reading the kinds of a text's tokens.

ghost use Rattle.std.specs.Prelude.{◌≡◌, ℕ, ◌<◌, List, length, IfOk, MatchResult};
ghost use Rattle.base.specs.Grammar.Answer.{EndsWith, IfFault};
ghost use Rattle.base.specs.Grammar.Derivation.{IsDerivation, IsSentence};
ghost use Rattle.base.specs.Grammar.Ll1.{IsLl1};
ghost use Rattle.base.specs.Grammar.Steps.{steps_of};
ghost use Rattle.base.specs.Grammar.Syntax.{syntax_of};
ghost use Rattle.base.specs.Grammar.Tree.{Forest, IsParseTree};
ghost use Rattle.base.specs.declared.grammar.parser.ParseError.TheVariants.{OutOfMemory};
ghost use Rattle.base.specs.Lists.Fault.{IsFirstFault};
ghost use Rattle.ir_builder.specs.Token.Rules.Ir.{ir};

use crate::token::rules::generated::kind::END;
use crate::token::rules::generated::tables;
use base::grammar::{Grammar, ParseError, Step};
use std::alloc::{AllocError, Global};

/// The grammar of IR texts.
#[tactic(auto, unfolding(crate::specs::Token::Rules::Ir::ir, crate::specs::Token::Rules::Rules::named_rules))]
pub fn grammar() -> Grammar<'static>
    ensures valid { IsLl1 result }
    ensures syntax { syntax_of result ≡ ir }
    ensures end { result.end ≡ END }
{
    Grammar {
        symbols: &tables::SYMBOLS,
        productions: &tables::PRODUCTIONS,
        spans: &tables::SPANS,
        end: END,
    }
}

/// The leftmost derivation of the kinds of a text's tokens, or the first one with which no text goes on.
pub fn parse(alloc: Global, kinds: &[u8]) -> Result<Vec<u16>, ParseError>
    requires { EndsWith kinds.now END }
    ensures found { IfOk result (λ found. IsDerivation ir found.items kinds.now) }
    ensures only { (ps : List ℕ) → IsDerivation ir ps kinds.now
        → MatchResult result (λ found. found.items ≡ ps) (λ e. e ≡ OutOfMemory) }
    ensures place { IfFault result (λ fault. IsFirstFault (IsSentence ir) kinds.now fault.place) }
    ensures within { IfFault result (λ fault. fault.place < length kinds.now) }
{
    base::grammar::parse(alloc, &grammar(), kinds)
}

/// The steps in which the tree of a derivation is built, from the left and from the bottom up.
pub fn steps(alloc: Global, productions: &[u16]) -> Result<Vec<Step>, AllocError>
    requires { (ts : List ℕ) × IsDerivation ir productions.now ts }
    ensures { IfOk result (λ steps. (ts : List ℕ) (f : Forest)
        → IsParseTree ir productions.now ts f → steps.items ≡ steps_of f) }
{
    base::grammar::steps(alloc, &grammar(), productions)
}
