ghost use Rattle.std.specs.Prelude.{false};
ghost use Rattle.dslx_core.specs.Lowering.Trees.{lower_block_of_text, lower_expression};
ghost use Rattle.dslx_total.specs.Typed.Claims.{PartIsTyped};
ghost use Rattle.dslx_meaning.specs.Rules.NodeRules.{block_pair, expr_pair};
ghost use Rattle.dslx_tree.specs.declared.block.Block.{Block};
ghost use Rattle.dslx_tree.specs.declared.expr.Expr.{Expr};

/// What a well-typed expression or block is lowered to, in a scope that matches the type environment and whose values have types, has
/// the type that its values have, without signs and names.
pub fn lowered_expressions_are_typed()
    ensures expression { (e : Expr) → PartIsTyped ((expr_pair e).1 false) (lower_expression e) }
    ensures block { (b : Block) → PartIsTyped ((block_pair b).1 false) (lower_block_of_text b) }
{}
