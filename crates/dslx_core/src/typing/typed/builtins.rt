ghost use Rattle.std.specs.Prelude.{◌≡◌, [], ◌∷◌, true, Option, Some};
ghost use Rattle.xb_bits.specs.Word.{Word};
ghost use Rattle.xb_span.specs.declared.span.Span.{Span};
ghost use Rattle.dslx_meaning.specs.Lists.{and_then};
ghost use Rattle.dslx_meaning.specs.Operators.{counted, reduced, updated};
ghost use Rattle.dslx_meaning.specs.Types.{bool_type, same_type};
ghost use Rattle.dslx_meaning.specs.declared.ty.DslxType.{DslxType};
ghost use Rattle.dslx_meaning.specs.declared.value.DslxValue.{DslxValue};
ghost use Rattle.dslx_meaning.specs.Rules.AggregateRules.{array_in, element_type, is_array};
ghost use Rattle.dslx_meaning.specs.Rules.CallRules.{counting};
ghost use Rattle.dslx_meaning.specs.Rules.ConstantRules.{is_unsigned};
ghost use Rattle.dslx_meaning.specs.Rules.TypeEnvs.{TypeEnv, ExprPair, alone};
ghost use Rattle.dslx_core.specs.Typing.Typed.Declared.{Declarations};
ghost use Rattle.dslx_core.specs.Typing.Typed.Given.{GivesOf, GivesItsType};
ghost use Rattle.dslx_core.specs.Typing.Typed.Kinds.{lies_in};

/// Builtins: those that keep the width of their operand, those that give one bit, and `update`.
pub fn builtins_give_values_of_their_types()
    ensures counting { (types : Declarations) (span : Span) (context : TypeEnv) (e : ExprPair) (x : Option DslxValue) (f : Word → Word)
        → ((w : Word) → (f w).width ≡ w.width) → ((w : Word) → lies_in w ≡ true → lies_in (f w) ≡ true) → GivesItsType types (alone context e) x
        → GivesItsType types (counting span (e ∷ []) (alone context e ∷ []) (alone context e).ty) (and_then x (λ v. counted f (v ∷ []))) }
    ensures reducing { (types : Declarations) (span : Span) (context : TypeEnv) (e : ExprPair) (x : Option DslxValue) (f : Word → Word)
        → ((w : Word) → (f w).width ≡ 1) → ((w : Word) → lies_in w ≡ true → lies_in (f w) ≡ true) → GivesItsType types (alone context e) x
        → GivesItsType types (counting span (e ∷ []) (alone context e ∷ []) (Some bool_type)) (and_then x (λ v. reduced f (v ∷ []))) }
    ensures update { (types : Declarations) (a k w : DslxType) (x y z : Option DslxValue) → GivesOf types a x → GivesOf types k y → GivesOf types w z
        → is_array a ≡ true → is_unsigned k ≡ true → ((u : DslxType) → element_type (array_in a) ≡ Some u → same_type u w ≡ true)
        → GivesOf types a (and_then x (λ v. and_then y (λ i. and_then z (λ new. updated (v ∷ i ∷ new ∷ []))))) }
{}
