ghost use Rattle.std.specs.Prelude.{◌≡◌, ℕ, List, map, not, Option, Some};
ghost use Rattle.xb_span.specs.declared.span.Span.{Span};
ghost use Rattle.dslx_tree.specs.declared.ident.Ident.{Ident};
ghost use Rattle.dslx_tree.specs.declared.item.Struct.{Struct};
ghost use Rattle.dslx_meaning.specs.Environment.{Env};
ghost use Rattle.dslx_meaning.specs.Items.{name_of_field};
ghost use Rattle.dslx_meaning.specs.Lists.{all_some, and_then, with_both, where_true};
ghost use Rattle.dslx_meaning.specs.Meaning.{FieldDen, field_of, struct_at};
ghost use Rattle.dslx_meaning.specs.Operators.{element_value, index_value, part_value, slice_value};
ghost use Rattle.dslx_meaning.specs.Types.{bits_in};
ghost use Rattle.dslx_meaning.specs.declared.ty.DslxType as ty;
ghost use Rattle.dslx_meaning.specs.declared.ty.DslxType.{DslxType, out-DslxType};
ghost use Rattle.dslx_meaning.specs.declared.value.DslxValue as value;
ghost use Rattle.dslx_meaning.specs.declared.value.DslxValue.{DslxValue};
ghost use Rattle.dslx_meaning.specs.Rules.AggregateRules.{tuple_typing, part_type, index_typing, field_part_typing, struct_with};
ghost use Rattle.dslx_meaning.specs.Rules.ConstantRules.{constant_or_untyped};
ghost use Rattle.dslx_meaning.specs.Rules.TypeEnvs.{TypeEnv, Judgement, ExprPair, alone};
ghost use Rattle.dslx_meaning.specs.Rules.Typings.{FieldSeen};
ghost use Rattle.dslx_meaning.specs.Rules.OperatorRules.{bound_number, part_typing, slice_typing};
ghost use Rattle.dslx_core.specs.Typing.Typed.Declared.{Declarations, DeclaresParts, IsDeclared};
ghost use Rattle.dslx_core.specs.Typing.Typed.Given.{EachGives, FieldsMean, GivesOf, GivesItsType, OthersGive, OwnTypes};

/// Tuples and what takes them apart.
pub fn tuples_give_values_of_their_types()
    ensures whole { (types : Declarations) (span : Span) (context : TypeEnv) (es : List ExprPair) (xs : List (Option DslxValue))
        → EachGives types context es xs → GivesItsType types (tuple_typing span context es) (and_then (all_some xs) (λ vs. Some (value.Tuple vs))) }
    ensures element { (types : Declarations) (whole t : DslxType) (k : ℕ) (x : Option DslxValue)
        → GivesOf types whole x → part_type whole k ≡ Some t → GivesOf types t (and_then x (λ v. element_value v k)) }
{}

/// Elements of arrays, slices and parts of bits, where the typing of bounds and types agrees with what they denote.
pub fn parts_give_values_of_their_types()
    ensures index { (types : Declarations) (span : Span) (context : TypeEnv) (e i : ExprPair) (x y : Option DslxValue)
        → GivesItsType types (alone context e) x → GivesItsType types (alone context i) y
        → GivesItsType types (index_typing span context e i) (with_both x y index_value) }
    ensures slice { (types : Declarations) (span : Span) (context : TypeEnv) (e a c : ExprPair) (x : Option DslxValue) (m n : Option ℕ)
        → GivesItsType types (alone context e) x
        → ((k : ℕ) → bound_number (constant_or_untyped context a) ≡ Some k → m ≡ Some k)
        → ((k : ℕ) → bound_number (constant_or_untyped context c) ≡ Some k → n ≡ Some k)
        → GivesItsType types (slice_typing span context e a c) (and_then x (λ v. with_both m n (slice_value v))) }
    ensures part { (types : Declarations) (span : Span) (context : TypeEnv) (e i : ExprPair) (target : Judgement) (x y : Option DslxValue) (u : Option DslxType)
        → GivesItsType types (alone context e) x → GivesItsType types (alone context i) y → ((t : DslxType) → target.ty ≡ Some t → u ≡ Some t)
        → GivesItsType types (part_typing span context e i target)
        (with_both x y (λ v k. and_then (and_then u bits_in) (λ kind. where_true (not kind.signed) (part_value v k kind.width)))) }
{}

/// Structs, with the fields that are written and with the others of another value, and their fields.
pub fn structs_give_values_of_their_types()
    ensures whole { (types : Declarations) → DeclaresParts types → (span : Span) (context : TypeEnv) (env : Env) (name : Ident)
        (fields : List FieldSeen) (ms : List FieldDen) (others : Option ExprPair) (r : Option DslxValue)
        → (item : Struct) (own : List ℕ) (names : List (List ℕ)) (ts : List DslxType)
        → map name_of_field item.fields ≡ names → OwnTypes names ts names ts → IsDeclared types (ty.Struct own names ts)
        → FieldsMean types context env (Some (ty.Struct own names ts)) fields ms → OthersGive types context others r
        → GivesItsType types (struct_with span context name fields others (Some (ty.Struct own names ts)) item)
        (struct_at env ms r (out-DslxType (ty.Struct own names ts))) }
    ensures field { (types : Declarations) → DeclaresParts types → (span : Span) (context : TypeEnv) (e : ExprPair) (name : Ident) (x : Option DslxValue)
        → GivesItsType types (alone context e) x → GivesItsType types (field_part_typing span context e name) (and_then x (λ v. field_of v name.name)) }
{}
