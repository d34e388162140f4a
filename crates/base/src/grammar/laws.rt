//! Laws, each the contract of a function that does nothing: of each grammar that one token of lookahead
//! decides, and of context-free grammars at large.

ghost use Rattle.std.specs.Prelude.{◌≡◌, ℕ, ◌*◌, ◌<◌, ◌≤◌, ◌++◌, List, length, Some, slice_get};
ghost use Rattle.base.specs.Grammar.Syntax.{Rule, Syntax, syntax_of};
ghost use Rattle.base.specs.Grammar.Derivation.{Derives, IsAlternative, IsBeginning, IsDerivation, IsRule};
ghost use Rattle.base.specs.Grammar.Ll1.{IsLl1};
ghost use Rattle.base.specs.Grammar.Tree.{AreLaid, AreNodes, Derived, Forest, Grows, IsExtent, IsParseTree, TreePosition, IsTreeAt, Tree, beginning, behind, below_of, productions_of, leaves_of};
ghost use Rattle.base.specs.declared.grammar.table.Symbol.{Symbol};
ghost use Rattle.base.specs.declared.grammar.tree.Node.{Node};

use crate::grammar::table::Grammar;

/// A list of tokens has at most one derivation.
pub fn one_derivation(grammar: &Grammar)
    requires { IsLl1 grammar.now }
    ensures { (ps qs ts : List ℕ) → IsDerivation (syntax_of grammar.now) ps ts
        → IsDerivation (syntax_of grammar.now) qs ts → ps ≡ qs }
{}

/// At most one list of productions leads to a prefix.
pub fn one_beginning(grammar: &Grammar)
    requires { IsLl1 grammar.now }
    ensures { (ps qs ts : List ℕ) → IsBeginning (syntax_of grammar.now) ps ts
        → IsBeginning (syntax_of grammar.now) qs ts → ps ≡ qs }
{}

/// A derivation has at most 32 productions for each token.
pub fn linear_derivations(grammar: &Grammar)
    requires { IsLl1 grammar.now }
    ensures { (ps ts : List ℕ) → IsDerivation (syntax_of grammar.now) ps ts
        → length ps ≤ 32 * length ts }
{}

/// A derivation is that of a parse tree, what grows from symbols by the rules has a derivation, and trees
/// from the same symbols are the same where their productions begin the same list. This holds of each
/// context-free grammar.
pub fn one_tree()
    ensures tree { (y : Syntax) (ps ts : List ℕ) → IsDerivation y ps ts
        → (f : Forest) × IsParseTree y ps ts f }
    ensures derives { (rules : List Rule) (s : List Symbol) (f : Forest) → Grows rules s f
        → Derives rules s (productions_of f) (leaves_of f) }
    ensures one { (rules : List Rule) (s : List Symbol) (f g : Forest) (xs ys : List ℕ)
        → Grows rules s f → Grows rules s g
        → productions_of f ++ xs ≡ productions_of g ++ ys → (f ≡ g) × (xs ≡ ys) }
{}

/// What a builder of trees goes by, which takes the positions of a tree among the productions and the tokens:
/// where the tree of a derivation stands, which production it begins with, how far it goes, and where each
/// symbol of its body stands.
pub fn children()
    ensures whole { (y : Syntax) (ps ts : List ℕ) → IsDerivation y ps ts
        → (t : Tree) × IsTreeAt (record { rules = y.rules; productions = ps; tokens = ts }) beginning 0 t }
    ensures first { (d : Derived) (at : TreePosition) (head : ℕ) (t : Tree) → IsTreeAt d at head t
        → (at.production < length d.productions) × (slice_get d.productions at.production ≡ Some t.number) }
    ensures extent { (d : Derived) (nodes : List Node) (n : Node) (at : TreePosition) (head : ℕ) (t : Tree)
        → AreNodes d.rules d.productions nodes → slice_get nodes at.production ≡ Some n
        → IsTreeAt d at head t → IsExtent d at n }
    ensures below { (d : Derived) (nodes : List Node) (n : Node) (at : TreePosition) (head : ℕ) (t : Tree)
        (body : List Symbol) → AreNodes d.rules d.productions nodes → slice_get nodes at.production ≡ Some n
        → IsTreeAt d at head t → IsRule d.rules t.number head body
        → AreLaid d nodes body t.below (below_of at) (behind n at) }
{}

/// A rule of a nonterminal is one of those that the list of the rules has for it.
pub fn alternatives()
    ensures { (rules : List Rule) (number head : ℕ) (body : List Symbol) → IsRule rules number head body
        → IsAlternative 0 rules head number body }
{}
