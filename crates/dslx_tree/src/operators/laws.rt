//! What the levels of operators come to. Each law is the contract of a function that does nothing.

ghost use Rattle.std.specs.Prelude.{◌≡◌, ◌+◌, ◌++◌, ◌∷◌, [], List};
ghost use Rattle.dslx_tree.specs.Operators.Levels.{AreBelow, joined, merged_to, tree_of};
ghost use Rattle.dslx_tree.specs.declared.operators.chain.Link.{Link};
ghost use Rattle.dslx_tree.specs.declared.operators.chain.Operand.{Operand};
ghost use Rattle.dslx_tree.specs.Levels.{level_of};

use crate::LEVELS;

/// The tree of a chain holds all of it: once all levels are made, no operator is left.
pub fn all_is_made()
    ensures { (first : Operand) (links : List Link) → (merged_to LEVELS first links).links ≡ [] }
{}

/// A chain splits at the last of its loosest operators: what stands before it is the tree on the left, and what stands
/// behind it the tree on the right. So in a tree no operator stands below a tighter one without brackets, and those of
/// one level take their operands from the left.
pub fn splits_at_the_last_loosest()
    ensures { (first : Operand) (before after : List Link) (link : Link)
        → AreBelow (level_of link.operator + 1) before → AreBelow (level_of link.operator) after
        → tree_of first (before ++ link ∷ after)
        ≡ joined link.operator (tree_of first before) (tree_of link.operand after) }
{}
