ghost use Rattle.std.specs.Prelude.{◌≡◌, ◌∷◌, ℕ, List, false, Option, Some};
ghost use Rattle.dslx_meaning.specs.Environment.{Given};
ghost use Rattle.dslx_meaning.specs.Meaning.{bound_of, denotation, size_of, value_of};
ghost use Rattle.dslx_meaning.specs.declared.ty.DslxType.{DslxType};
ghost use Rattle.dslx_meaning.specs.declared.value.DslxValue.{DslxValue};
ghost use Rattle.dslx_meaning.specs.Rules.ConstantRules.{constant_typing, constant_of, constant_or_untyped, count_of};
ghost use Rattle.dslx_meaning.specs.Rules.TypeEnvs.{TypeEnv, ExprPair, Typed, with_typed};
ghost use Rattle.dslx_meaning.specs.Rules.OperatorRules.{bound_number};
ghost use Rattle.dslx_core.specs.Typing.Typed.Complete.{IsWellTypedPart};
ghost use Rattle.dslx_core.specs.Typing.Typed.InTypeEnv.{IsInTypeEnv, env_there};

/// The value that typing finds for an expression that must be constant is the one that it denotes there, whatever is bound: a
/// constant's value, a width, a size or a depth, and a bound of a slice. It stays so behind names that are bound, which are
/// no constants'.
pub fn known_constants_are_sound()
    ensures value { (context : TypeEnv) (bound : List Given) (e : ExprPair) (v : DslxValue) → IsInTypeEnv context bound
        → (constant_of context e).value ≡ Some v → value_of e.0 (env_there context bound) ≡ Some v }
    ensures known { (context : TypeEnv) (bound : List Given) (e : ExprPair) (t : DslxType) (n : ℕ) (v : DslxValue) → IsInTypeEnv context bound
        → IsWellTypedPart context.known (constant_of context e).judgement → (constant_typing context e).ty ≡ Some t → (constant_typing context e).size ≡ Some n
        → value_of e.0 (env_there context bound) ≡ Some v
        → (constant_of context e).value ≡ Some v }
    ensures binding { (context : TypeEnv) (locals : List Typed) (bound : List Given) (name : List ℕ) (t : Option DslxType) (v : DslxValue)
        → context.known.items.is_constant name ≡ false → IsInTypeEnv (with_typed context locals) bound
        → IsInTypeEnv (with_typed context (record { name = name; ty = t } ∷ locals)) (record { name = name; value = v } ∷ bound) }
    ensures size { (context : TypeEnv) (bound : List Given) (e : ExprPair) (n : ℕ) → IsInTypeEnv context bound
        → (count_of context e).count ≡ Some n → size_of (denotation e.0) (env_there context bound) ≡ Some n }
    ensures bound { (context : TypeEnv) (bound : List Given) (e : ExprPair) (n : ℕ) → IsInTypeEnv context bound
        → bound_number (constant_or_untyped context e) ≡ Some n → bound_of (denotation e.0) (env_there context bound) ≡ Some n }
{}
