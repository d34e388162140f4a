ghost use Rattle.dslx_meaning.specs.Items.{item_named};
ghost use Rattle.dslx_meaning.specs.Lists.{all_some, and_then, with_both};
ghost use Rattle.dslx_meaning.specs.Meaning.{ExprDen, TypeDen, size_of};
ghost use Rattle.dslx_meaning.specs.declared.ty.DslxType as ty;
ghost use Rattle.dslx_meaning.specs.Rules.ConstantRules.{count_of};
ghost use Rattle.dslx_meaning.specs.Rules.TypeEnvs.{ExprPair, faults_of_all, reached_of_all, settled, types_of};
ghost use Rattle.dslx_meaning.specs.Rules.Typings.{TypePair};
ghost use Rattle.dslx_meaning.specs.Rules.Mentions.{AsType, is_of_use};
ghost use Rattle.dslx_meaning.specs.Rules.TypeRules.{array_of, counted_type, inner_type, inner_types, named_bits, named_type};
ghost use Rattle.dslx_core.specs.Typing.Sound.Sound.{EachTypeHasDen, ExprGives, TypeHasDen};
ghost use Rattle.std.specs.Prelude.{Bool, List, Some, [], map, ℕ};
ghost use Rattle.xb_span.specs.declared.span.Span.{Span};

/// Written types: the type that typing gives each is the one that it denotes, and it has one where it is well-typed.
pub fn written_types_are_known()
    ensures plain { (span : Span) (s : Bool) (w : ℕ) → TypeHasDen (λ context. named_bits span s w) (λ env. Some (ty.Bits s w)) }
    ensures wide { (span : Span) (s : Bool) (e : ExprPair) (x : ExprDen) → ExprGives e x
        → TypeHasDen (λ context. counted_type span (and_then (count_of context e).count (λ w. Some (ty.Bits s w))) [] (count_of context e)) (λ env. and_then (size_of x env) (λ w. Some (ty.Bits s w))) }
    ensures name { (span : Span) (name : List ℕ) → TypeHasDen (λ context. named_type span context name (is_of_use AsType (item_named name context.known.whole.items))) (λ env. env.items.type_named name) }
    ensures tuple { (span : Span) (ps : List TypePair) (fs : List TypeDen) → EachTypeHasDen ps fs
        → TypeHasDen (λ context. settled span (and_then (all_some (types_of (inner_types context ps))) (λ ts. Some (ty.Tuple ts))) (faults_of_all (inner_types context ps)) (reached_of_all (inner_types context ps)) (Some 0))
        (λ env. and_then (all_some (map (λ (t : TypeDen). t env) fs)) (λ ts. Some (ty.Tuple ts))) }
    ensures array { (span : Span) (p : TypePair) (f : TypeDen) (e : ExprPair) (x : ExprDen) → TypeHasDen p.1 f → ExprGives e x
        → TypeHasDen (λ context. array_of span (inner_type context p) (count_of context e)) (λ env. with_both (f env) (size_of x env) (λ t n. Some (ty.Array t n))) }
{}
