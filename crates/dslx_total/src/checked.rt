//! What is checked of a text without faults: all but functions and procs that nothing calls or spawns.
ghost use Rattle.std.specs.Prelude.{◌≡◌, ℕ, List, [], Option, Some, true, length};
ghost use Rattle.dslx_tree.specs.declared.item.Definition.{Definition};
ghost use Rattle.dslx_tree.specs.declared.item.Module.{Module};
ghost use Rattle.dslx_tree.specs.declared.process.Proc.{Proc};
ghost use Rattle.dslx_meaning.specs.Items.{item_named, meanings_of};
ghost use Rattle.dslx_meaning.specs.Network.{top_proc};
ghost use Rattle.dslx_meaning.specs.Rules.ModuleRules.{faults_of, globals_of};
ghost use Rattle.dslx_core.specs.Lowering.Instances.{CallSettles, ItemsAreOwn};
ghost use Rattle.dslx_core.specs.Typing.Laws.Agreement.{ItemMeansOne};
ghost use Rattle.dslx_core.specs.Typing.TypingRelations.Closed.{ends_within};
ghost use Rattle.dslx_core.specs.Typing.TypingRelations.Reached.{IsClosed};
ghost use Rattle.dslx_total.specs.Instances.Checked.{is_checked_item};
ghost use Rattle.dslx_total.specs.Instances.Denoted.{KnowsChecked, checked_globals};

/// Where no part of a text breaks a rule or passes a limit, each of its items that is checked mentions such items alone, and chains
/// of mentions from it are no longer than the list of items. So it means what the global environment has of it, also where
/// functions and procs that nothing calls or spawns reach themselves.
pub fn checked_items_mention_such()
    ensures closed { (m : Module) (top : Option (List ℕ)) → faults_of m top ≡ [] → IsClosed (is_checked_item m top) m }
    ensures ends { (m : Module) (top : Option (List ℕ)) → faults_of m top ≡ []
        → (name : List ℕ) (x : Definition) → item_named name m.items ≡ Some x → is_checked_item m top name ≡ true → ends_within m (length m.items) name ≡ true }
    ensures means { (m : Module) (top : Option (List ℕ)) → faults_of m top ≡ []
        → (name : List ℕ) (x : Definition) → item_named name m.items ≡ Some x → is_checked_item m top name ≡ true → ItemMeansOne (globals_of m).items (meanings_of m) name }
{
    dslx_core::typing::laws::items_have_ranks();
    dslx_core::typing::laws::reaching_takes_no_more_than_the_items();
    dslx_core::typing::typing::accepted_texts_have_no_cycle();
    dslx_core::typing::typing::instances_reach_one_another();
    dslx_core::typing::typing::looping_items_mean_nothing();
    dslx_core::typing::typing::what_is_sized_reaches_what_it_calls();
    dslx_core::typing::known::all_items_are_known();
    dslx_core::typing::denotation::global_env_is_sound();
    dslx_core::typing::accepted::items_of_accepted_texts_are_well_typed();
    crate::instances::checked_instances_are_own();
}

/// So what the items of such a text denote and what its global environment has of them differ in calls alone.
pub fn meanings_differ_in_calls_alone()
    ensures { (m : Module) (top : Option (List ℕ)) → faults_of m top ≡ [] → meanings_of m ≡ record (globals_of m).items { call = (meanings_of m).call } }
{
    checked_items_mention_such();
}

/// So there is a global environment that has what the items of such a text denote, and in which what is checked breaks and reaches
/// what it does by the text's own one. What a checked function's calls denote is what its text gives, constants and members of enums
/// have values of their own types, and the top proc is checked.
pub fn what_is_checked_is_known()
    ensures known { (m : Module) (top : Option (List ℕ)) → faults_of m top ≡ [] → KnowsChecked m top (checked_globals m top) }
    ensures settled { (m : Module) (top : Option (List ℕ)) → faults_of m top ≡ [] → (name : List ℕ) → is_checked_item m top name ≡ true → CallSettles m (meanings_of m) name }
    ensures own { (m : Module) (top : Option (List ℕ)) → faults_of m top ≡ [] → ItemsAreOwn (meanings_of m) }
    ensures tops { (m : Module) (top : Option (List ℕ)) → faults_of m top ≡ [] → (p : Proc) → top_proc m top ≡ Some p → is_checked_item m top p.name.name ≡ true }
{
    dslx_core::typing::depends::a_judgement_depends_on_what_is_mentioned();
    dslx_core::typing::typing::accepted_texts_have_no_cycle();
    dslx_core::typing::typing::instances_reach_one_another();
    dslx_core::typing::typing::looping_items_mean_nothing();
    dslx_core::typing::known::all_items_are_known();
    dslx_core::typing::accepted::items_of_accepted_texts_are_well_typed();
    checked_items_mention_such();
    meanings_differ_in_calls_alone();
}
