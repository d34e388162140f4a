//! The depth of the tree of a DSLX text: how many of its parts stand one in another.
//!
//! What recurses along a tree takes at most a fixed number of calls for each part of a path from its root, so this bounds
//! each recursion over trees. The nesting of tokens alone doesn't: the marks in a bracket count no more where it closes, so
//! in `((x) + x) + x + x ..` each bracket may have its own operators behind it. The greatest depth is a sum over the
//! brackets, and so about half the square of the limit on nesting.
ghost use Rattle.std.specs.Prelude.{◌≡◌, ◌≤◌, List};
ghost use Rattle.dslx_parser.specs.Depths.TreeDepths.{NestWithin, tree_depth, most_high};
ghost use Rattle.dslx_parser.specs.Syntax.Trees.{IsTextOf};
ghost use Rattle.dslx_token.specs.Lexeme.{Lexeme};
ghost use Rattle.dslx_tree.specs.declared.item.Module.{Module};

/// The tree of a text in which no token is nested deeper than the limit is no deeper than 8,906.
pub fn trees_are_shallow()
    ensures high { (ls : List Lexeme) (m : Module) → IsTextOf ls m → NestWithin ls → tree_depth m ≤ most_high }
    ensures number { most_high ≡ 8906 }
{
    crate::syntax::all_rules_make();
    base::grammar::one_tree();
}
