ghost use Rattle.std.specs.Prelude.{◌≡◌, List, Bool, Option, Some};
ghost use Rattle.xb_span.specs.declared.span.Span.{Span};
ghost use Rattle.dslx_meaning.specs.Environment.{Env};
ghost use Rattle.dslx_meaning.specs.Lists.{all_some, and_then};
ghost use Rattle.dslx_meaning.specs.Meaning.{ExprDen, array_at};
ghost use Rattle.dslx_meaning.specs.declared.ty.DslxType.{DslxType, out-DslxType};
ghost use Rattle.dslx_meaning.specs.declared.value.DslxValue as value;
ghost use Rattle.dslx_meaning.specs.declared.value.DslxValue.{DslxValue};
ghost use Rattle.dslx_meaning.specs.Rules.AggregateRules.{typed_array, untyped_array};
ghost use Rattle.dslx_meaning.specs.Rules.TypeEnvs.{TypeEnv, Judgement, ExprPair};
ghost use Rattle.dslx_core.specs.Typing.Typed.Declared.{Declarations, IsDeclared};
ghost use Rattle.dslx_core.specs.Typing.Typed.Given.{EachGives, EachMeans, GivesItsType};

/// Array literals without a type, whose first element decides, and with one, whose elements may be numbers without a type
/// and whose last one three dots repeat.
pub fn arrays_give_values_of_their_types()
    ensures untyped { (types : Declarations) (span : Span) (context : TypeEnv) (es : List ExprPair) (dots : Bool) (xs : List (Option DslxValue))
        → EachGives types context es xs → GivesItsType types (untyped_array span context es dots) (and_then (all_some xs) (λ vs. Some (value.Array vs))) }
    ensures typed { (types : Declarations) (span : Span) (context : TypeEnv) (env : Env) (written : Judgement) (w : Option DslxType)
        (es : List ExprPair) (ms : List ExprDen) (dots : Bool)
        → ((t : DslxType) → written.ty ≡ Some t → (w ≡ Some t) × IsDeclared types t) → EachMeans types context env es ms
        → GivesItsType types (typed_array span context written es dots) (and_then w (λ t. array_at env ms dots (out-DslxType t))) }
{}
