ghost use Rattle.std.specs.Prelude.{◌≡◌, Option, Some};
ghost use Rattle.xb_span.specs.declared.span.Span.{Span};
ghost use Rattle.dslx_tree.specs.declared.operator.Binary.{Binary};
ghost use Rattle.dslx_tree.specs.declared.operator.Prefix.{Prefix};
ghost use Rattle.dslx_meaning.specs.Lists.{and_then, with_both};
ghost use Rattle.dslx_meaning.specs.Operators.{binary_value, prefix_value, cast_value};
ghost use Rattle.dslx_meaning.specs.declared.ty.DslxType.{DslxType};
ghost use Rattle.dslx_meaning.specs.declared.value.DslxValue.{DslxValue};
ghost use Rattle.dslx_meaning.specs.Rules.TypeEnvs.{TypeEnv, Judgement, ExprPair, alone};
ghost use Rattle.dslx_meaning.specs.Rules.OperatorRules.{binary_typing, prefix_typing, cast_typing};
ghost use Rattle.dslx_core.specs.Typing.Typed.Declared.{Declarations};
ghost use Rattle.dslx_core.specs.Typing.Typed.Given.{GivesItsType};

/// Operators and casts, where their operands give values of their types and a cast's written type denotes the type that
/// typing gives it.
pub fn operations_give_values_of_their_types()
    ensures binary { (types : Declarations) (span : Span) (context : TypeEnv) (o : Binary) (l r : ExprPair) (x y : Option DslxValue)
        → GivesItsType types (alone context l) x → GivesItsType types (alone context r) y
        → GivesItsType types (binary_typing span context o l r) (with_both x y (binary_value o)) }
    ensures prefix { (types : Declarations) (span : Span) (context : TypeEnv) (o : Prefix) (e : ExprPair) (x : Option DslxValue)
        → GivesItsType types (alone context e) x → GivesItsType types (prefix_typing span context e) (and_then x (prefix_value o)) }
    ensures cast { (types : Declarations) (span : Span) (context : TypeEnv) (e : ExprPair) (target : Judgement) (x : Option DslxValue) (u : Option DslxType)
        → GivesItsType types (alone context e) x → ((t : DslxType) → target.ty ≡ Some t → u ≡ Some t)
        → GivesItsType types (cast_typing span context e target) (with_both u x cast_value) }
{}
