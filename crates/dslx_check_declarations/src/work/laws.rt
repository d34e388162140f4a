//! What is known stays so, and what is learnt is known.

ghost use Rattle.std.specs.Prelude.{◌≡◌, ℕ, [], Some};
ghost use Rattle.dslx_tree.specs.declared.item.Definition.{Definition};
ghost use Rattle.dslx_tree.specs.declared.item.Definition.TheVariants as d;
ghost use Rattle.dslx_tree.specs.declared.item.Function.{Function};
ghost use Rattle.dslx_tree.specs.declared.item.Module.{Module};
ghost use Rattle.dslx_meaning.specs.Rules.ModuleRules.{globals_within};
ghost use Rattle.dslx_meaning.specs.Rules.TypeEnvs.{GlobalEnv};
ghost use Rattle.dslx_check_facts.specs.Known.{FactsHold, item_at, text_of};
ghost use Rattle.dslx_check_facts.specs.Nothing.{IsNothingKnown};
ghost use Rattle.dslx_check_facts.specs.Walks.{HasTables, WalkGrows, WalkShown};
ghost use Rattle.dslx_check_facts.specs.declared.facts.Facts.{Facts};
ghost use Rattle.dslx_check_facts.specs.declared.facts.ForeignSeen.{ForeignSeen};
ghost use Rattle.dslx_check_facts.specs.declared.facts.Sums.{Sums};
ghost use Rattle.dslx_check_declarations.specs.Items.{ItemGrows};
ghost use Rattle.dslx_check_declarations.specs.declared.items.ItemSeen.{ItemSeen};
ghost use Rattle.dslx_check_declarations.specs.Work.Comes.{FunctionComesTo, ItemComesTo, PartComesTo};
ghost use Rattle.dslx_check_declarations.specs.Work.Learnt.{IsDoneAs, IsJudgedItem, IsJudgedPart, LearnsInstance, LearnsItem, LearnsPart};
ghost use Rattle.dslx_check_declarations.specs.Work.Settled.{DeclarationsSettle, FunctionsSettle, ItemsSettle};
ghost use Rattle.dslx_check_declarations.specs.Work.Tables.{KnowsBy};
ghost use Rattle.dslx_check_declarations.specs.Work.Text.{HasItemsByKind, IsTextEnv};

/// What is known is what the walks over parts ask for.
pub fn what_is_known_holds()
    ensures { (f : Facts) (walk later : WalkShown) (known : GlobalEnv) → KnowsBy f walk known → HasTables walk later → FactsHold f later known }
{}

/// It stays known while a walk goes on, and at the start, where nothing is known, it is so.
pub fn what_is_known_stays()
    ensures goes_on { (f : Facts) (old new : WalkShown) (known : GlobalEnv) → WalkGrows old new → KnowsBy f old known → KnowsBy f new known }
    ensures nothing { (f : Facts) (walk : WalkShown) (known : GlobalEnv) → IsNothingKnown f → IsTextEnv (text_of f) f.reaching known → walk.rows ≡ [] → KnowsBy f walk known }
{}

/// What is learnt of an item, an instance or a part of a declaration, and is what the global environment has of it, is known.
pub fn what_is_learnt_is_known()
    ensures item { (old new : Facts) (before after : WalkShown) (known : GlobalEnv) (item : ℕ) (seen : ItemSeen) → KnowsBy old before known → ItemGrows item before after
        → LearnsItem old new item seen → IsJudgedItem old after known item seen → KnowsBy new after known }
    ensures instance { (old new : Facts) (walk : WalkShown) (known : GlobalEnv) (instance : ℕ) (sums : Sums) → KnowsBy old walk known
        → LearnsInstance old new instance sums → IsDoneAs old walk known instance sums → KnowsBy new walk known }
    ensures part { (old new : Facts) (walk : WalkShown) (known : GlobalEnv) (number : ℕ) (there : ForeignSeen) → KnowsBy old walk known
        → LearnsPart old new number there → IsJudgedPart old walk known number there → KnowsBy new walk known }
{}

/// An item that comes to something by a settled global environment is what that has of it, and so are an instance of a function and a part
/// of a declaration. So it may be learnt.
pub fn what_is_judged_is_there()
    ensures item { (f : Facts) (walk : WalkShown) (known : GlobalEnv) (item : ℕ) (x : Definition) (seen : ItemSeen) → IsTextEnv (text_of f) f.reaching known → ItemsSettle (text_of f) known
        → item_at f item ≡ Some x → ItemComesTo f walk known x seen → IsJudgedItem f walk known item seen }
    ensures instance { (f : Facts) (walk : WalkShown) (known : GlobalEnv) (instance item : ℕ) (own : Function) (sums : Sums) → IsTextEnv (text_of f) f.reaching known → FunctionsSettle (text_of f) known
        → item_at f item ≡ Some (d.Function own) → FunctionComesTo f walk known instance own sums → IsDoneAs f walk known instance sums }
    ensures part { (f : Facts) (walk : WalkShown) (known : GlobalEnv) (number : ℕ) (there : ForeignSeen) → DeclarationsSettle (text_of f) known
        → PartComesTo f walk known number there → IsJudgedPart f walk known number there }
{}

/// The global environments of a text have of each name only what the text's item of that name is.
pub fn texts_have_items_by_kind()
    ensures { (m : Module) (n : ℕ) → HasItemsByKind m (globals_within m n) }
{}
