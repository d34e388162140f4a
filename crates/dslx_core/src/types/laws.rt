//! What holds of checked expressions that have types, as the contract of a function without a body.

ghost use Rattle.std.specs.Prelude.{◌≡◌, List, Some};
ghost use Rattle.xb_value.specs.declared.ty.Ty.{Ty};
ghost use Rattle.xb_value.specs.declared.value.Value.{Value};
ghost use Rattle.dslx_core.specs.declared.expr.CoreExpr.{CoreExpr};
ghost use Rattle.dslx_core.specs.CoreValues.{Functions, core_value};
ghost use Rattle.dslx_core.specs.Types.Typing.{FunctionTypes, core_type};
ghost use Rattle.dslx_core.specs.Types.Sound.{AreOfTypes, FunctionsGive, HasValueOf};

/// An expression with a type has a value of it, whatever values of their types are bound, where what functions give is of its type.
pub fn typed_expressions_have_values()
    ensures { (e : CoreExpr) (functions : FunctionTypes) (calls : Functions) (types : List Ty) (bound : List Value) (t : Ty) →
        FunctionsGive functions calls → AreOfTypes types bound → core_type e functions types ≡ Some t → HasValueOf (core_value e calls bound) t }
{}
