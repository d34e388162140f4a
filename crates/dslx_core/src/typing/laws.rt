//! What holds of the meaning of texts and of their faults, for every text.
ghost use Rattle.std.specs.Prelude.{◌≡◌, ◌↔◌, ◌≤◌, ℕ, List, [], Option, Some, None, true, length};
ghost use Rattle.std.specs.List.{list_any};
ghost use Rattle.std.specs.Option.{option_map};
ghost use Rattle.std.specs.Str.{bytes_eq};
ghost use Rattle.xb_span.specs.Fault.{first_of, key_of};
ghost use Rattle.xb_span.specs.declared.fault.Fault.{Fault};
ghost use Rattle.xb_span.specs.declared.span.Span.{Span};
ghost use Rattle.dslx_tree.specs.declared.expr.Expr.{Expr};
ghost use Rattle.dslx_tree.specs.declared.item.Definition.{Definition};
ghost use Rattle.dslx_tree.specs.declared.item.Module.{Module};
ghost use Rattle.dslx_tree.specs.declared.operator.Binary.{Binary};
ghost use Rattle.dslx_tree.specs.declared.operator.Prefix.{Prefix};
ghost use Rattle.dslx_meaning.specs.Environment.{Meanings, Env, Given};
ghost use Rattle.dslx_meaning.specs.Items.{item_named, meanings_of, meanings_over, meanings_within};
ghost use Rattle.dslx_meaning.specs.Meaning.{value_of};
ghost use Rattle.dslx_meaning.specs.Operators.{binary_value, prefix_value, cast_value};
ghost use Rattle.dslx_meaning.specs.Values.{type_of_value};
ghost use Rattle.dslx_meaning.specs.declared.ty.DslxType.{DslxType};
ghost use Rattle.dslx_meaning.specs.declared.value.DslxValue.{DslxValue};
ghost use Rattle.dslx_meaning.specs.Rules.ModuleRules.{faults_of, first_fault};
ghost use Rattle.dslx_meaning.specs.Rules.Mentions.{mentioned, mentions_of, free_names, item_reaches, reaches_within};
ghost use Rattle.dslx_meaning.specs.Rules.OperatorRules.{is_bits, is_bits_or_enum, binary_faults, binary_type};
ghost use Rattle.dslx_core.specs.Typing.Laws.Agreement.{AgreeOn, AreBoundAlike, BindConstantsAlike};
ghost use Rattle.dslx_core.specs.Typing.Laws.Least.{IsLeastOf, HaveSameFaults};
ghost use Rattle.dslx_core.specs.Typing.Laws.Ranks.{Ranked};
ghost use Rattle.dslx_core.specs.Typing.Laws.Recursion.{HasNoCycle};

/// The fault that is named is one of the text's, and none of the others is to be named before it.
pub fn the_first_fault_is_least()
    ensures { (m : Module) (top : Option (List ℕ)) (f : Fault) → first_fault m top ≡ Some f → IsLeastOf (faults_of m top) f }
{}

/// A text is accepted exactly where no part of it breaks a rule or passes a limit.
pub fn accepted_without_faults()
    ensures { (m : Module) (top : Option (List ℕ)) → (first_fault m top ≡ None) ↔ (faults_of m top ≡ []) }
{}

/// Which fault is named doesn't depend on the order in which the parts of a text are visited, nor on how often: of lists
/// with the same faults those that are named have one position in the order.
pub fn any_order_names_one_fault()
    ensures { (fs gs : List Fault) (f g : Fault) → HaveSameFaults fs gs → first_of fs ≡ Some f → first_of gs ≡ Some g → key_of f ≡ key_of g }
{}

/// The value of an expression depends on what it mentions alone: it is one value in two environments in which each name
/// that it mentions means the same.
pub fn a_value_depends_on_what_is_mentioned()
    ensures { (e : Expr) (a b : Env) → AgreeOn (mentioned e []) a b → value_of e a ≡ value_of e b }
{}

/// The value of an expression doesn't depend on names that aren't free in it.
pub fn a_value_depends_on_free_names()
    ensures { (e : Expr) (items : Meanings) (bound others : List Given) → BindConstantsAlike items bound others
        → AreBoundAlike (free_names e) bound others
        → value_of e (record { items = items; bound = bound }) ≡ value_of e (record { items = items; bound = others }) }
{}

/// Recursion between items ends where no item reaches itself: what the items denote, which is defined by chains of at most as
/// many items as there are, is what they denote by longer chains, and so it is what they denote where what they mention denotes
/// that. It is the only denotation of which this is so.
pub fn recursion_ends()
    ensures longer { (m : Module) → HasNoCycle m → (n : ℕ) → length m.items ≤ n → meanings_within m n ≡ meanings_of m }
    ensures settled { (m : Module) → HasNoCycle m → meanings_over m (meanings_of m) ≡ meanings_of m }
    ensures only { (m : Module) → HasNoCycle m → (items : Meanings) → meanings_over m items ≡ items → items ≡ meanings_of m }
{}

/// What an operation gives for values of types that break none of its rules is a value, and of the type that the rules give
/// it.
pub fn operations_have_values_of_their_types()
    ensures binary { (o : Binary) (span left right : Span) (v w : DslxValue)
        → binary_faults o span left (Some (type_of_value v)) right (Some (type_of_value w)) ≡ []
        → option_map type_of_value (binary_value o v w) ≡ binary_type o (Some (type_of_value v)) (Some (type_of_value w)) }
    ensures prefix { (o : Prefix) (v : DslxValue) → is_bits (type_of_value v) ≡ true → option_map type_of_value (prefix_value o v) ≡ Some (type_of_value v) }
    ensures cast { (t : DslxType) (v : DslxValue) → is_bits t ≡ true → is_bits_or_enum (type_of_value v) ≡ true
        → option_map type_of_value (cast_value t v) ≡ Some t }
{}

/// What an item reaches at all it reaches by as many mentions as there are items, so that it reaches what it mentions, and reaching
/// goes on. Rule 3 at a mention is then that both items reach one another, or are one.
pub fn reaching_takes_no_more_than_the_items()
    ensures bounded { (m : Module) (k : ℕ) (a b : List ℕ) → reaches_within m k a b ≡ true → item_reaches m a b ≡ true }
    ensures mentioned { (m : Module) (a b : List ℕ) → list_any (bytes_eq b) (mentions_of m (item_named a m.items)) ≡ true → item_reaches m a b ≡ true }
    ensures on { (m : Module) (a b c : List ℕ) → item_reaches m a b ≡ true → item_reaches m b c ≡ true → item_reaches m a c ≡ true }
{}

/// Each item has a rank, whatever cycles there are: chains of items, each of which reaches the next and isn't reached by it, are no
/// longer than the list of items.
pub fn items_have_ranks()
    ensures { (m : Module) (name : List ℕ) (x : Definition) → item_named name m.items ≡ Some x → Ranked m (length m.items) name }
{}
