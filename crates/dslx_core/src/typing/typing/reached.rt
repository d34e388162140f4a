ghost use Rattle.dslx_core.specs.Typing.TypingRelations.Closed.{IsLeastClosed, IsOneOf, ReachOneAnother};
ghost use Rattle.dslx_core.specs.Typing.TypingRelations.Called.{called};
ghost use Rattle.dslx_core.specs.Typing.TypingRelations.Cycles.{AllUsed};
ghost use Rattle.dslx_core.specs.Typing.TypingRelations.Reached.{AllNamed, IsClosed, MentionsReach};
ghost use Rattle.dslx_core.specs.Typing.TypingRelations.Whole.{IsFunctionThere, IsItemThere, IsProcThere};
ghost use Rattle.dslx_core.specs.Typing.Laws.Ranks.{is_above};
ghost use Rattle.dslx_meaning.specs.Items.{item_named};
ghost use Rattle.dslx_meaning.specs.Rules.TypeEnvs.{GlobalEnv, Instance, TypeEnv};
ghost use Rattle.dslx_meaning.specs.Rules.ItemRules.{function_seen};
ghost use Rattle.dslx_meaning.specs.Rules.ProcRules.{proc_seen};
ghost use Rattle.dslx_tree.specs.declared.process.Proc.{Proc};
ghost use Rattle.dslx_meaning.specs.declared.value.DslxValue.{DslxValue};
ghost use Rattle.dslx_tree.specs.declared.item.Definition.TheVariants as definition;
ghost use Rattle.dslx_tree.specs.declared.item.Function.{Function};
ghost use Rattle.dslx_meaning.specs.Rules.Mentions.{definition_mentions, mentioned, mentioned_in_block, mentioned_in_type, mentions_of, names_mentioned};
ghost use Rattle.dslx_meaning.specs.Rules.ModuleRules.{found_of_instance, instances_of, is_reached, item_found, globals_of, globals_within, outside_instances, own_instances, reached_within};
ghost use Rattle.dslx_meaning.specs.Rules.NodeRules.{block_pair, expr_pair, type_pair};
ghost use Rattle.dslx_meaning.specs.Rules.PatternRules.{is_there};
ghost use Rattle.dslx_tree.specs.declared.block.Block.{Block};
ghost use Rattle.dslx_tree.specs.declared.expr.Expr.{Expr};
ghost use Rattle.dslx_tree.specs.declared.type_expr.TypeExpr.{TypeExpr};
ghost use Rattle.dslx_tree.specs.declared.item.Definition.{Definition};
ghost use Rattle.dslx_tree.specs.declared.item.Module.{Module};
ghost use Rattle.std.specs.List.{list_all};
ghost use Rattle.std.specs.Prelude.{◌≡◌, ◌++◌, Bool, List, ℕ, Option, Some, true, length};

/// What a part of a text reaches is of functions that it mentions, or is reached by their parametrics: a test that
/// the names of those pass is passed by the name of each instance that the part reaches, whatever is bound.
pub fn what_is_reached_is_mentioned()
    ensures expression { (P : List ℕ → Bool) (e : Expr) (bound : List (List ℕ)) (on_top : Bool) (context : TypeEnv) → MentionsReach P context.known context.owner (mentioned e bound) → AllNamed P ((expr_pair e).1 on_top context).reached }
    ensures block { (P : List ℕ → Bool) (b : Block) (bound : List (List ℕ)) (on_top : Bool) (context : TypeEnv) → MentionsReach P context.known context.owner (mentioned_in_block b bound) → AllNamed P ((block_pair b).1 on_top context).reached }
    ensures written { (P : List ℕ → Bool) (t : TypeExpr) (bound : List (List ℕ)) (context : TypeEnv) → MentionsReach P context.known context.owner (mentioned_in_type t bound) → AllNamed P ((type_pair t).1 context).reached }
{}

/// What has a size, as what breaks no rule and knows all its parametrics has, reaches an instance of each function and each proc that it
/// mentions: a test that the name of each instance passes that the part reaches is passed by the name of each of those. A written
/// type does so where it is one, an instance of a function or a proc where all that it declares is there and its body has a size, and
/// another item where it is known.
pub fn what_is_sized_reaches_what_it_calls()
    ensures expression { (P : List ℕ → Bool) (e : Expr) (bound : List (List ℕ)) (on_top : Bool) (context : TypeEnv) → is_there ((expr_pair e).1 on_top context).size ≡ true → AllNamed P ((expr_pair e).1 on_top context).reached → AllUsed (called P) (mentioned e bound) }
    ensures block { (P : List ℕ → Bool) (b : Block) (bound : List (List ℕ)) (on_top : Bool) (context : TypeEnv) → is_there ((block_pair b).1 on_top context).size ≡ true → AllNamed P ((block_pair b).1 on_top context).reached → AllUsed (called P) (mentioned_in_block b bound) }
    ensures written { (P : List ℕ → Bool) (t : TypeExpr) (bound : List (List ℕ)) (context : TypeEnv) → is_there ((type_pair t).1 context).ty ≡ true → AllNamed P ((type_pair t).1 context).reached → AllUsed (called P) (mentioned_in_type t bound) }
    ensures function { (P : List ℕ → Bool) (known : GlobalEnv) (f : Function) (parametric_args : List DslxValue) → IsFunctionThere known f parametric_args → AllNamed P (function_seen known f parametric_args).found.reached → AllUsed (called P) (definition_mentions (definition.Function f)) }
    ensures proc { (P : List ℕ → Bool) (known : GlobalEnv) (p : Proc) (parametric_args : List DslxValue) → IsProcThere known p parametric_args → AllNamed P (proc_seen known p parametric_args).reached → AllUsed (called P) (definition_mentions (definition.Proc p)) }
    ensures item { (P : List ℕ → Bool) (known : GlobalEnv) (x : Definition) → IsItemThere known x → AllNamed P (item_found known x).reached → AllUsed (called P) (definition_mentions x) }
{}

/// In the text of a module, by chains of items of any length: where a test that the name of an item passes is passed by the
/// name of each item that it mentions, an item that mentions such alone reaches instances of such alone, by its own text and by
/// each instance of it.
pub fn items_reach_what_they_mention()
    ensures instance { (P : List ℕ → Bool) (m : Module) → IsClosed P m → (n : ℕ) (i : Instance) → list_all P (mentions_of m (item_named i.name m.items)) ≡ true
        → AllNamed P (found_of_instance (globals_within m n) i).reached }
    ensures item { (P : List ℕ → Bool) (m : Module) → IsClosed P m → (n : ℕ) (x : Definition) → list_all P (mentions_of m (Some x)) ≡ true → AllNamed P (item_found (globals_within m n) x).reached }
    ensures expression { (P : List ℕ → Bool) (m : Module) → IsClosed P m → (n : ℕ) (e : Expr) (bound : List (List ℕ)) (on_top : Bool) (context : TypeEnv) → context.known ≡ globals_within m n
        → list_all P (names_mentioned m (mentioned e bound)) ≡ true → AllNamed P ((expr_pair e).1 on_top context).reached }
{}

/// What an instance reaches stands below it: its item reaches the item of each instance that it reaches, and isn't reached by that.
pub fn instances_reach_what_is_below()
    ensures { (m : Module) (n : ℕ) (i : Instance) → AllNamed (is_above m i.name) (found_of_instance (globals_within m n) i).reached }
{}

/// The instances of a text that are checked reach none but one another: as many calls and spawns as there are items come to the end
/// of what any instances reach. What is reached outside all instances is checked, too.
pub fn instances_reach_one_another()
    ensures any { (m : Module) (n : ℕ) (start : List Instance) → ReachOneAnother (globals_within m n) (reached_within (globals_within m n) (length m.items) start) }
    ensures text { (m : Module) (top : Option (List ℕ)) → ReachOneAnother (globals_of m) (instances_of m top) }
    ensures outside { (m : Module) (top : Option (List ℕ)) (i : Instance) → IsOneOf i (outside_instances m top).reached → is_reached i (instances_of m top) ≡ true }
{}

/// And they are the least that have the instances of functions and procs without parametrics, what is reached outside all
/// instances, and all that they reach themselves.
pub fn what_is_checked_is_least()
    ensures any { (m : Module) (n : ℕ) (start : List Instance) → IsLeastClosed (globals_within m n) start (reached_within (globals_within m n) (length m.items) start) }
    ensures text { (m : Module) (top : Option (List ℕ)) → IsLeastClosed (globals_of m) (own_instances m.items ++ (outside_instances m top).reached) (instances_of m top) }
{}
