//! Grammars as data.

ghost use Rattle.std.specs.Prelude.{◌≡◌, ℕ, ◌<◌, ◌↔◌, length, IsTrue, IfSome, IfNone};
ghost use Rattle.std.specs.Int.{bit_at};

/// A symbol of a grammar.
#[derive(Clone, Copy, PartialEq, Eq)]
pub enum Symbol {
    /// A kind of token.
    Terminal(u8),
    /// A nonterminal, by its number.
    Nonterminal(u8),
}

/// One alternative of a nonterminal.
#[derive(Clone, Copy, PartialEq, Eq)]
pub struct Production {
    /// The nonterminal.
    pub head: u8,
    /// Where what it may be rewritten to begins among the grammar's symbols.
    pub first: u16,
    /// Where that ends.
    pub end: u16,
    /// The kinds of token before which this alternative is taken, a bit for each.
    pub chosen: u128,
}

impl Production {
    /// Whether this alternative is taken before a token of this kind.
    pub fn is_taken_before(&self, kind: u8) -> bool
        ensures { IsTrue result ↔ (bit_at self.now.chosen kind ≡ 1) }
    {
        let chosen = self.chosen;
        kind < 128 && chosen >> kind & 1 == 1
    }
}

/// Where the alternatives of a nonterminal stand among the productions.
#[derive(Clone, Copy, PartialEq, Eq)]
pub struct Span {
    /// The number of the first one.
    pub first: u16,
    /// The number behind the last one.
    pub end: u16,
}

/// A context-free grammar. Its start symbol is the nonterminal 0.
#[derive(Clone, Copy)]
pub struct Grammar<'a> {
    /// The bodies of the productions, one behind the other.
    pub symbols: &'a [Symbol],
    /// The productions, with those of one nonterminal side by side.
    pub productions: &'a [Production],
    /// The alternatives of each nonterminal.
    pub spans: &'a [Span],
    /// The kind of the mark at the end of each list of tokens.
    pub end: u8,
}

impl Grammar<'_> {
    ghost use Rattle.base.specs.Grammar.Syntax.{rules_of};
    ghost use Rattle.base.specs.Grammar.Derivation.{IsRule};
    ghost use Rattle.base.specs.Grammar.Ll1.{IsLl1};
    ghost use Rattle.base.specs.Grammar.Inner.Choosing.{IsChoice, IsNoChoice};

    /// The alternative of the nonterminal that is taken before a token of this kind.
    pub(crate) fn choose(&self, nonterminal: u8, kind: u8) -> Option<u16>
        requires { IsLl1 self.now }
        ensures some { IfSome result (λ number. IsChoice self.now nonterminal kind number) }
        ensures none { IfNone result (IsNoChoice self.now nonterminal kind) }
    {
        let Some(&span) = self.spans.get(usize::from(nonterminal)) else {
            return None;
        };
        for number in span.first..span.end {
            let production = &self.productions[usize::from(number)];
            if production.head == nonterminal && production.is_taken_before(kind) {
                return Some(number);
            }
        }
        None
    }

    /// What a production's nonterminal may be rewritten to.
    pub(crate) fn body(&self, number: u16) -> &[Symbol]
        requires valid { IsLl1 self.now }
        requires within { number < length self.now.productions.now }
        ensures { (head : ℕ) × IsRule (rules_of self.now) number head result.now }
    {
        let production = &self.productions[usize::from(number)];
        let first = usize::from(production.first);
        let end = usize::from(production.end);
        &self.symbols[first..end]
    }
}
