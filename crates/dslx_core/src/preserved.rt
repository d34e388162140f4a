//! What breaks no rule has the value that it denotes, and what it is lowered to in a checked text has the same one.
ghost use Rattle.std.specs.Prelude.{◌≡◌, List, Some, false};
ghost use Rattle.dslx_core.specs.CoreValues.{Bindings, Functions};
ghost use Rattle.dslx_core.specs.Lowering.CoreScopes.{CoreScope};
ghost use Rattle.dslx_core.specs.Lowering.Correspondence.{HasPlainValue, SimulatesInScope, env_at};
ghost use Rattle.dslx_core.specs.Lowering.Lowering.{LoweredExpr};
ghost use Rattle.dslx_core.specs.Lowering.Trees.{lower_expression};
ghost use Rattle.dslx_meaning.specs.Environment.{Given};
ghost use Rattle.dslx_meaning.specs.Meaning.{value_of};
ghost use Rattle.dslx_meaning.specs.declared.value.DslxValue.{DslxValue};
ghost use Rattle.dslx_meaning.specs.Rules.TypeEnvs.{TypeEnv};
ghost use Rattle.dslx_meaning.specs.Rules.NodeRules.{expr_pair};
ghost use Rattle.dslx_tree.specs.declared.expr.Expr.{Expr};
ghost use Rattle.dslx_core.specs.Typing.Typed.Complete.{IsWellTypedPart};
ghost use Rattle.dslx_core.specs.Typing.Typed.WellTyped.{IsWellTypedEnv};

/// A well-typed expression, where the type environment is well typed: if it is lowered to a core expression in a scope
/// where its names are bound at their indices, it has a value, and the core expression has this value without signs and names.
pub fn lower_preserves_typed_expressions()
    ensures { (e : Expr) (context : TypeEnv) (scope : CoreScope) (calls : Functions) (given : List Given) (bound : Bindings)
        → IsWellTypedEnv context (env_at scope given) → IsWellTypedPart context.known ((expr_pair e).1 false context) → SimulatesInScope scope calls given bound
        → (l : LoweredExpr) → lower_expression e scope ≡ Some l
        → (v : DslxValue) × (value_of e (env_at scope given) ≡ Some v) × HasPlainValue l calls bound v }
{
    crate::typing::sound::an_expression_has_its_value();
    crate::lowering::lower_preserves_expressions();
}
