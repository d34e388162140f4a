ghost use Rattle.dslx_core.specs.Typing.TypingRelations.Closed.{IsOneOf};
ghost use Rattle.dslx_core.specs.Typing.TypingRelations.Cycles.{AllUsed, IsBehindNames};
ghost use Rattle.dslx_meaning.specs.Items.{as_function, item_named};
ghost use Rattle.dslx_meaning.specs.Network.{as_proc};
ghost use Rattle.dslx_meaning.specs.Rules.TypeEnvs.{Instance, TypeEnv, has_broken};
ghost use Rattle.dslx_meaning.specs.Rules.Mentions.{Use, item_reaches, mentioned, mentioned_in_block, mentioned_in_type};
ghost use Rattle.dslx_meaning.specs.Rules.ModuleRules.{faults_of, found_of_instance, globals_within, instances_of};
ghost use Rattle.dslx_meaning.specs.Rules.NodeRules.{block_pair, expr_pair, type_pair};
ghost use Rattle.dslx_meaning.specs.declared.value.DslxValue.{DslxValue};
ghost use Rattle.dslx_tree.specs.declared.block.Block.{Block};
ghost use Rattle.dslx_tree.specs.declared.expr.Expr.{Expr};
ghost use Rattle.dslx_tree.specs.declared.item.Definition.{Definition};
ghost use Rattle.dslx_tree.specs.declared.item.Definition.TheVariants as definition;
ghost use Rattle.dslx_tree.specs.declared.item.Function.{Function};
ghost use Rattle.dslx_tree.specs.declared.item.Module.{Module};
ghost use Rattle.dslx_tree.specs.declared.process.Proc.{Proc};
ghost use Rattle.dslx_tree.specs.declared.type_expr.TypeExpr.{TypeExpr};
ghost use Rattle.std.specs.Prelude.{◌≡◌, Bool, List, Option, ℕ, [], None, Some, false, true};

/// Rule 3 is judged at each mention: a part of a text that breaks no rule mentions no item that reaches the item in whose text it
/// stands. Of effects nothing is said, since they may name a channel as they do a constant.
pub fn rule_3_is_judged()
    ensures expression { (Q : Use → List ℕ → Bool) (e : Expr) (bound : List (List ℕ)) (context : TypeEnv) → IsBehindNames Q bound context → has_broken ((expr_pair e).1 false context).faults ≡ false → AllUsed Q (mentioned e bound) }
    ensures block { (Q : Use → List ℕ → Bool) (b : Block) (bound : List (List ℕ)) (context : TypeEnv) → IsBehindNames Q bound context → has_broken ((block_pair b).1 false context).faults ≡ false → AllUsed Q (mentioned_in_block b bound) }
    ensures written { (Q : Use → List ℕ → Bool) (t : TypeExpr) (bound : List (List ℕ)) (context : TypeEnv) → IsBehindNames Q bound context → has_broken ((type_pair t).1 context).faults ≡ false → AllUsed Q (mentioned_in_type t bound) }
{}

/// An item that reaches itself means nothing, whatever its name is used as, however long chains of items are.
pub fn looping_items_mean_nothing()
    ensures constant { (m : Module) (name : List ℕ) → item_reaches m name name ≡ true → (n : ℕ) → (globals_within m n).items.constant name ≡ None }
    ensures written { (m : Module) (name : List ℕ) → item_reaches m name name ≡ true → (n : ℕ) → (globals_within m n).items.type_named name ≡ None }
    ensures fields { (m : Module) (name : List ℕ) → item_reaches m name name ≡ true → (n : ℕ) → (globals_within m n).items.struct_named name ≡ None }
    ensures member { (m : Module) (name : List ℕ) → item_reaches m name name ≡ true → (n : ℕ) (member : List ℕ) → (globals_within m n).items.member name member ≡ None }
    ensures call { (m : Module) (name : List ℕ) → item_reaches m name name ≡ true → (n : ℕ) (given operands : List DslxValue) → (globals_within m n).items.call name given operands ≡ None }
{}

/// Each instance of a function or a proc that reaches itself breaks a rule.
pub fn looping_instances_break_rules()
    ensures of_proc { (m : Module) (n : ℕ) (i : Instance) (p : Proc) → item_named i.name m.items ≡ Some (definition.Proc p) → item_reaches m i.name i.name ≡ true → has_broken (found_of_instance (globals_within m n) i).faults ≡ true }
    ensures of_function { (m : Module) (n : ℕ) (i : Instance) (f : Function) → item_named i.name m.items ≡ Some (definition.Function f) → item_reaches m i.name i.name ≡ true → has_broken (found_of_instance (globals_within m n) i).faults ≡ true }
{}

/// So where no part of a text breaks a rule or passes a limit, no constant, alias, struct or enum reaches itself, nor does a function or a
/// proc of which an instance is checked. Only functions and procs that nothing calls or spawns may.
pub fn accepted_texts_have_no_cycle()
    ensures item { (m : Module) (top : Option (List ℕ)) → faults_of m top ≡ [] → (name : List ℕ) (x : Definition) → item_named name m.items ≡ Some x → as_function (Some x) ≡ None → as_proc (Some x) ≡ None → item_reaches m name name ≡ false }
    ensures instance { (m : Module) (top : Option (List ℕ)) → faults_of m top ≡ [] → (i : Instance) → IsOneOf i (instances_of m top) → item_reaches m i.name i.name ≡ false }
{}
