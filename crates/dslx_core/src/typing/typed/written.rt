ghost use Rattle.std.specs.Prelude.{◌≡◌, ℕ, List, [], Bool, Option, Some};
ghost use Rattle.xb_span.specs.declared.span.Span.{Span};
ghost use Rattle.dslx_meaning.specs.Lists.{all_some, and_then, with_both};
ghost use Rattle.dslx_meaning.specs.declared.ty.DslxType as ty;
ghost use Rattle.dslx_meaning.specs.declared.ty.DslxType.{DslxType};
ghost use Rattle.dslx_meaning.specs.Rules.ConstantRules.{CountSeen, count_of};
ghost use Rattle.dslx_meaning.specs.Rules.TypeEnvs.{TypeEnv, Judgement, ExprPair, faults_of_all, reached_of_all, settled, types_of};
ghost use Rattle.dslx_meaning.specs.Rules.Typings.{TypePair};
ghost use Rattle.dslx_meaning.specs.Rules.TypeRules.{array_of, counted_type, inner_types, named_bits, named_type};
ghost use Rattle.dslx_core.specs.Typing.Typed.Declared.{Declarations, IsDeclared};
ghost use Rattle.dslx_core.specs.Typing.Typed.Given.{EachTypeMeans, TypeMeans};
ghost use Rattle.dslx_core.specs.Typing.Typed.WellTyped.{types_at};

/// Written types: where one has a type, it is the one that it denotes, and each of its structs and enums is the text's. Sizes
/// have to denote the numbers that typing finds, as they do (`known_constants_are_sound`).
pub fn known_types_are_sound()
    ensures bits { (types : Declarations) (span : Span) (s : Bool) (w : ℕ) → TypeMeans types (named_bits span s w) (Some (ty.Bits s w)) }
    ensures wide { (types : Declarations) (span : Span) (s : Bool) (n : CountSeen) (m : Option ℕ) → ((k : ℕ) → n.count ≡ Some k → m ≡ Some k)
        → TypeMeans types (counted_type span (and_then n.count (λ w. Some (ty.Bits s w))) [] n) (and_then m (λ w. Some (ty.Bits s w))) }
    ensures name { (span : Span) (context : TypeEnv) (name : List ℕ) (b : Bool) → ((t : DslxType) → types_at context name ≡ Some t → IsDeclared (types_at context) t)
        → TypeMeans (types_at context) (named_type span context name b) (types_at context name) }
    ensures tuple { (types : Declarations) (span : Span) (context : TypeEnv) (ps : List TypePair) (us : List (Option DslxType)) → EachTypeMeans types context ps us
        → TypeMeans types
        (settled span (and_then (all_some (types_of (inner_types context ps))) (λ ts. Some (ty.Tuple ts))) (faults_of_all (inner_types context ps)) (reached_of_all (inner_types context ps)) (Some 0))
        (and_then (all_some us) (λ ts. Some (ty.Tuple ts))) }
    ensures array { (types : Declarations) (span : Span) (context : TypeEnv) (element : Judgement) (e : ExprPair) (u : Option DslxType) (m : Option ℕ) → TypeMeans types element u
        → ((k : ℕ) → (count_of context e).count ≡ Some k → m ≡ Some k)
        → TypeMeans types (array_of span element (count_of context e)) (with_both u m (λ t n. Some (ty.Array t n))) }
{}
