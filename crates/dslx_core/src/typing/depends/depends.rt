ghost use Rattle.dslx_core.specs.Typing.Depends.Alike.{SeesAlike, TypesAlike, UseAlike, in_globals};
ghost use Rattle.dslx_core.specs.Typing.Depends.Groups.{without_own};
ghost use Rattle.dslx_meaning.specs.Items.{as_function, item_named};
ghost use Rattle.dslx_meaning.specs.Rules.TypeEnvs.{Instance, GlobalEnv, TypeEnv};
ghost use Rattle.dslx_meaning.specs.Rules.Mentions.{Use, mentioned, mentioned_in_block, mentioned_in_type};
ghost use Rattle.dslx_meaning.specs.Rules.ModuleRules.{globals_over, globals_within};
ghost use Rattle.dslx_meaning.specs.Rules.NodeRules.{block_pair, expr_pair, type_pair};
ghost use Rattle.dslx_tree.specs.declared.block.Block.{Block};
ghost use Rattle.dslx_tree.specs.declared.expr.Expr.{Expr};
ghost use Rattle.dslx_tree.specs.declared.item.Definition.TheVariants as definition;
ghost use Rattle.dslx_tree.specs.declared.item.Function.{Function};
ghost use Rattle.dslx_tree.specs.declared.item.Module.{Module};
ghost use Rattle.dslx_tree.specs.declared.process.Proc.{Proc};
ghost use Rattle.dslx_tree.specs.declared.type_expr.TypeExpr.{TypeExpr};
ghost use Rattle.std.specs.Prelude.{◌≡◌, ◌≤◌, ◌*◌, Bool, List, ℕ, suc, Some, length};

/// Where two global environments agree on what a part of a text mentions, on the enums that its item reaches, and on the
/// constants that bound names hide, the part has one judgement by both: its type, what it breaks and passes, the instances
/// that it reaches, and its size.
pub fn a_judgement_depends_on_what_is_mentioned()
    ensures expression { (P : List ℕ → Bool) (e : Expr) (bound : List (List ℕ)) (on_top : Bool) (context : TypeEnv) (other : GlobalEnv)
        → SeesAlike P bound context.owner context.known other (mentioned e bound) → (expr_pair e).1 on_top context ≡ (expr_pair e).1 on_top (in_globals context other) }
    ensures block { (P : List ℕ → Bool) (b : Block) (bound : List (List ℕ)) (on_top : Bool) (context : TypeEnv) (other : GlobalEnv)
        → SeesAlike P bound context.owner context.known other (mentioned_in_block b bound) → (block_pair b).1 on_top context ≡ (block_pair b).1 on_top (in_globals context other) }
    ensures written { (P : List ℕ → Bool) (t : TypeExpr) (bound : List (List ℕ)) (context : TypeEnv) (other : GlobalEnv)
        → SeesAlike P bound context.owner context.known other (mentioned_in_type t bound) → (type_pair t).1 context ≡ (type_pair t).1 (in_globals context other) }
{}

/// Global environments settle, whatever reaches itself and whatever names are bound: by chains of twice as many links as the text has
/// items, and by all longer ones, they have the same of each constant, type, enum and function, and of the instances of functions.
pub fn what_is_known_settles()
    ensures items { (m : Module) (a b : ℕ) → 2 * length m.items ≤ a → 2 * length m.items ≤ b
        → (u : Use) (name : List ℕ) → UseAlike (globals_within m a) (globals_within m b) u name }
    ensures instances { (m : Module) (a b : ℕ) → 2 * length m.items ≤ a → 2 * length m.items ≤ b
        → (i : Instance) (f : Function) → as_function (item_named i.name m.items) ≡ Some f
        → ((globals_within m a).is_sound i ≡ (globals_within m b).is_sound i) × ((globals_within m a).is_unbroken i ≡ (globals_within m b).is_unbroken i) }
{}

/// A part of a declaration sees types and values alone of its own group: where nothing is known of what those items declare that are
/// the item or reach it, it has the same types of parametrics, values of defaults and signatures.
pub fn a_group_sees_types_alone()
    ensures of_function { (m : Module) (n : ℕ) (f : Function) → item_named f.name.name m.items ≡ Some (definition.Function f)
        → TypesAlike (globals_within m (suc n)) (globals_over (without_own (globals_within m n) f.name.name)) f.name.name }
    ensures of_proc { (m : Module) (n : ℕ) (p : Proc) → item_named p.name.name m.items ≡ Some (definition.Proc p)
        → TypesAlike (globals_within m (suc n)) (globals_over (without_own (globals_within m n) p.name.name)) p.name.name }
{}
