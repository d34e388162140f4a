//! The tree of a chain of operators is the only one in which each operator stands where its level says.
ghost use Rattle.std.specs.Prelude.{◌≡◌, List};
ghost use Rattle.dslx_tree.specs.Chains.Ordered.{IsOrderedTree};
ghost use Rattle.dslx_tree.specs.Operators.Levels.{tree_of};
ghost use Rattle.dslx_tree.specs.declared.operators.chain.Link.{Link};
ghost use Rattle.dslx_tree.specs.declared.operators.chain.Operand.{Operand};

/// Of all trees of a chain there is one in which no operator stands below a tighter one, and in which those of one level
/// take their operands from the left: the tree by levels.
pub fn one_ordered_tree()
    ensures ordered { (first : Operand) (links : List Link) → IsOrderedTree first links (tree_of first links) }
    ensures only { (first : Operand) (links : List Link) (tree : Operand) → IsOrderedTree first links tree
        → tree ≡ tree_of first links }
{
    crate::operators::splits_at_the_last_loosest();
}
