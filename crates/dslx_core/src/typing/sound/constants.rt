ghost use Rattle.dslx_meaning.specs.Environment.{Env};
ghost use Rattle.dslx_meaning.specs.Meaning.{ExprDen};
ghost use Rattle.dslx_meaning.specs.Rules.ConstantRules.{constant_of, count_of};
ghost use Rattle.dslx_meaning.specs.Rules.TypeEnvs.{ExprPair, TypeEnv};
ghost use Rattle.dslx_core.specs.Typing.Sound.Sound.{ExprGives, HasKnownValue};
ghost use Rattle.dslx_core.specs.Typing.Typed.Complete.{IsWellTypedPart};
ghost use Rattle.dslx_core.specs.Typing.Typed.WellTyped.{IsWellTypedEnv};
ghost use Rattle.std.specs.Prelude.{Some, ℕ, ◌≡◌};

/// For what must be constant, typing finds the value, and for a width, a size or a depth a number.
pub fn constants_have_values()
    ensures value { (context : TypeEnv) (env : Env) (e : ExprPair) (x : ExprDen) → ExprGives e x → IsWellTypedEnv context env → IsWellTypedPart context.known (constant_of context e).judgement → HasKnownValue context env e x }
    ensures count { (context : TypeEnv) (env : Env) (e : ExprPair) (x : ExprDen) → ExprGives e x → IsWellTypedEnv context env → IsWellTypedPart context.known (count_of context e).judgement → (n : ℕ) × ((count_of context e).count ≡ Some n) }
{}
