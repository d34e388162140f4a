//! Reading the kinds of a DSLX text's tokens.

ghost use Rattle.std.specs.Prelude.{◌≡◌, ℕ, ◌<◌, ◌++◌, List, length, take, IfOk, MatchResult};
ghost use Rattle.base.specs.Grammar.Answer.{EndsWith, IfFault};
ghost use Rattle.base.specs.Grammar.Derivation.{StartsWith, IsBeginning, IsDerivation, IsSentence};
ghost use Rattle.base.specs.Grammar.Ll1.{IsLl1};
ghost use Rattle.base.specs.Grammar.Syntax.{syntax_of};
ghost use Rattle.base.specs.Grammar.Steps.{steps_of};
ghost use Rattle.base.specs.Grammar.Tree.{AreNodes, Forest, IsParseTree};
ghost use Rattle.base.specs.declared.grammar.parser.ParseError.TheVariants.{OutOfMemory};
ghost use Rattle.base.specs.Lists.Fault.{IsFirstFault};
ghost use Rattle.dslx_token.specs.Rules.Dslx.{dslx};

use crate::rules::generated::kind::END;
use crate::rules::generated::tables;
use base::grammar::{Grammar, Node, ParseError, Step};
use std::alloc::{AllocError, Global};

/// The grammar of DSLX.
#[tactic(auto, unfolding(crate::specs::Rules::Dslx::dslx, crate::specs::Rules::Rules::named_rules))]
pub fn grammar() -> Grammar<'static>
    ensures valid { IsLl1 result }
    ensures syntax { syntax_of result ≡ dslx }
    ensures end { result.end ≡ END }
{
    Grammar {
        symbols: &tables::SYMBOLS,
        productions: &tables::PRODUCTIONS,
        spans: &tables::SPANS,
        end: END,
    }
}

/// The leftmost derivation of the kinds of a text's tokens, or the first one with which no text goes on.
pub fn parse(alloc: Global, kinds: &[u8]) -> Result<Vec<u16>, ParseError>
    requires { EndsWith kinds.now END }
    ensures found { IfOk result (λ found. IsDerivation dslx found.items kinds.now) }
    ensures only { (ps : List ℕ) → IsDerivation dslx ps kinds.now
        → MatchResult result (λ found. found.items ≡ ps) (λ e. e ≡ OutOfMemory) }
    ensures place { IfFault result (λ fault. IsFirstFault (IsSentence dslx) kinds.now fault.place) }
    ensures within { IfFault result (λ fault. fault.place < length kinds.now) }
    ensures so_far { IfFault result
        (λ fault. IsBeginning dslx fault.productions.items (take fault.place kinds.now)) }
    ensures forced { IfFault result (λ fault. (more ps : List ℕ)
        → IsDerivation dslx ps (take fault.place kinds.now ++ more)
        → StartsWith ps fault.productions.items) }
{
    base::grammar::parse(alloc, &grammar(), kinds)
}

/// The tree of a derivation of the kinds: for each production, how many productions and tokens it took.
pub fn parse_tree(alloc: Global, productions: &[u16], kinds: &[u8]) -> Result<Vec<Node>, AllocError>
    requires { IsDerivation dslx productions.now kinds.now }
    ensures { IfOk result (λ nodes. AreNodes dslx.rules productions.now nodes.items) }
{
    base::grammar::parse_tree(alloc, &grammar(), productions, kinds)
}

/// The steps in which the tree of a derivation is built from the bottom up.
pub fn steps(alloc: Global, productions: &[u16]) -> Result<Vec<Step>, AllocError>
    requires { (ts : List ℕ) × IsDerivation dslx productions.now ts }
    ensures { IfOk result (λ steps. (ts : List ℕ) (f : Forest)
        → IsParseTree dslx productions.now ts f → steps.items ≡ steps_of f) }
{
    base::grammar::steps(alloc, &grammar(), productions)
}
