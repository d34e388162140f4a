//! The tree of a derivation.

ghost use Rattle.std.specs.Prelude.{◌+◌, IfOk};
ghost use Rattle.base.specs.Grammar.Syntax.{rules_of, syntax_of};
ghost use Rattle.base.specs.Grammar.Derivation.{IsDerivation};
ghost use Rattle.base.specs.Grammar.Ll1.{IsLl1};
ghost use Rattle.base.specs.Grammar.Tree.{AreNodes, IsNode};
ghost use Rattle.base.specs.Grammar.Inner.Nodes.{AreNodesFrom, HasTree};

use crate::grammar::table::{Grammar, Symbol};
use std::alloc::{AllocError, Global};

/// What one production of a derivation took, with all that is below it in the tree.
///
/// The first nonterminal of its body took the productions from behind it on, and each further one those
/// from the end of the one before.
#[derive(Clone, Copy, PartialEq, Eq)]
pub struct Node {
    /// The index in the derivation behind the last production of this tree.
    pub end: usize,
    /// How many tokens the tree has.
    pub tokens: usize,
}

/// For each production of a derivation which stretch of the productions, and how many of the tokens, its
/// nonterminal took. The work is linear.
pub fn parse_tree(
    alloc: Global,
    grammar: &Grammar,
    productions: &[u16],
    kinds: &[u8],
) -> Result<Vec<Node>, AllocError>
    requires valid { IsLl1 grammar.now }
    requires derivation { IsDerivation (syntax_of grammar.now) productions.now kinds.now }
    ensures { IfOk result (λ nodes. AreNodes (rules_of grammar.now) productions.now nodes.items) }
{
    let mut nodes = vec![in alloc; Node { end: 0, tokens: 0 }; productions.len()]?;
    for place in (0..productions.len()).rev() {
        let node = node_at(grammar, productions, &nodes, place);
        nodes[place] = node;
    }
    Ok(nodes)
}

/// The node of the production at an index, from those of the productions behind it.
fn node_at(grammar: &Grammar, productions: &[u16], nodes: &[Node], place: usize) -> Node
    requires valid { IsLl1 grammar.now }
    requires tree { HasTree (rules_of grammar.now) productions.now place }
    requires nodes { AreNodesFrom (rules_of grammar.now) productions.now nodes.now (place + 1) }
    ensures { IsNode (rules_of grammar.now) productions.now place result }
{
    let mut node = Node {
        end: place + 1,
        tokens: 0,
    };
    for symbol in grammar.body(productions[place]) {
        match symbol {
            Symbol::Terminal(_) => node.tokens += 1,
            Symbol::Nonterminal(_) => {
                let child = nodes[node.end];
                node.end = child.end;
                node.tokens += child.tokens;
            }
        }
    }
    node
}
