ghost use Rattle.std.specs.Prelude.{false};
ghost use Rattle.dslx_core.specs.Lowering.Trees.{lower_block_of_text, lower_expression, lower_type_of_text};
ghost use Rattle.dslx_total.specs.Expressions.ExprLowering.{IsWide, LowersWhereWellTyped, TypeLowersWhereWellTyped};
ghost use Rattle.dslx_meaning.specs.Rules.NodeRules.{block_pair, expr_pair, type_pair};
ghost use Rattle.dslx_tree.specs.declared.block.Block.{Block};
ghost use Rattle.dslx_tree.specs.declared.expr.Expr.{Expr};
ghost use Rattle.dslx_tree.specs.declared.type_expr.TypeExpr.{TypeExpr};

/// A well-typed expression, block or written type, where the type environment is well-typed: in a scope that matches
/// the type environment it is lowered to something of the type that it has. All bits in a written type whose type is known
/// have a width.
pub fn lower_total_expression()
    ensures expression { (e : Expr) → LowersWhereWellTyped ((expr_pair e).1 false) (lower_expression e) }
    ensures block { (b : Block) → LowersWhereWellTyped ((block_pair b).1 false) (lower_block_of_text b) }
    ensures wide { (t : TypeExpr) → IsWide (type_pair t).1 }
    ensures ty { (t : TypeExpr) → TypeLowersWhereWellTyped (type_pair t).1 (lower_type_of_text t) }
{}
