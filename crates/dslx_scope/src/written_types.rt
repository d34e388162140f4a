//! What written types are lowered to in a scope, by what they denote.
//!
//! There is no code here: code that lowers types asks what they denote among the parametrics, and whether they see a local.
ghost use Rattle.std.specs.Prelude.{◌≡◌};
ghost use Rattle.dslx_tree.specs.declared.type_expr.TypeExpr.{TypeExpr};
ghost use Rattle.dslx_meaning.specs.Meaning.{written_type};
ghost use Rattle.dslx_core.specs.Lowering.CoreScopes.{CoreScope, globals_env, unless_local};
ghost use Rattle.dslx_core.specs.Lowering.Trees.{lower_type_of_text};
ghost use Rattle.dslx_scope.specs.WrittenTypes.Seen.{type_sees_a_local};

/// A written type is lowered to what it denotes where items and parametrics alone are in scope; to nothing if a size in it sees a
/// local.
pub fn lower_total_written_types()
    ensures { (t : TypeExpr) (scope : CoreScope) → lower_type_of_text t scope ≡ unless_local (type_sees_a_local scope t) (written_type t (globals_env scope.known)) }
{}
