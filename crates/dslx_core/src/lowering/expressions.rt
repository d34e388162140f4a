ghost use Rattle.dslx_tree.specs.declared.block.Block.{Block};
ghost use Rattle.dslx_tree.specs.declared.expr.Expr.{Expr};
ghost use Rattle.dslx_tree.specs.declared.type_expr.TypeExpr.{TypeExpr};
ghost use Rattle.dslx_meaning.specs.Meaning.{value_of, value_of_block, written_type};
ghost use Rattle.dslx_core.specs.Lowering.Correspondence.{LowerPreserves, TypeLowerPreserves};
ghost use Rattle.dslx_core.specs.Lowering.Trees.{lower_block_of_text, lower_expression, lower_type_of_text};

/// Where an expression is lowered to a core expression of a type, and it has a value in a scope where each bound name has a value
/// of its type, which is found at its index: that value is of the type, and the core expression has it, without signs and
/// names. A written type denotes there the type that it is lowered to.
pub fn lower_preserves_expressions()
    ensures expression { (e : Expr) → LowerPreserves (lower_expression e) (value_of e) }
    ensures block { (b : Block) → LowerPreserves (lower_block_of_text b) (value_of_block b) }
    ensures ty { (t : TypeExpr) → TypeLowerPreserves (lower_type_of_text t) (written_type t) }
{}
