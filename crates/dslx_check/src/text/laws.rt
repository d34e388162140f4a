//! What is known of a text by its own global environment.

ghost use Rattle.dslx_tree.specs.declared.item.Module.{Module};
ghost use Rattle.dslx_meaning.specs.Rules.ModuleRules.{globals_of};
ghost use Rattle.dslx_meaning.specs.Rules.Namesakes.{told_apart};
ghost use Rattle.dslx_check_items.specs.Reaching.{AreReached, item_needs};
ghost use Rattle.dslx_check_items.specs.declared.reaching.Reaching.{Reaching};
ghost use Rattle.dslx_check_rules.specs.Interned.{AreDistinct};
ghost use Rattle.dslx_check_facts.specs.Names.{HasNoMarks, names_of};
ghost use Rattle.dslx_check.specs.Text.ByNames.{IsTextByNames, ReachAlike};

/// No two items have one name, where those of one name are told apart.
pub fn items_have_names_of_their_own()
    ensures { (text : Module) → HasNoMarks text → AreDistinct (names_of text) }
{}

/// Items reach one another by their names, where those of one name are told apart, as they do by their numbers in the text.
pub fn items_reach_by_names_as_by_numbers()
    ensures { (text : Module) → HasNoMarks text → ReachAlike text }
{
    items_have_names_of_their_own();
}

/// What the text's own global environment says of names and of what reaches what is what is known of the text. Of values it is said elsewhere.
pub fn texts_are_known_by_names()
    ensures { (text : Module) (reaching : Reaching) → HasNoMarks text → AreReached (item_needs text) reaching → IsTextByNames text reaching (globals_of (told_apart text)) }
{
    items_have_names_of_their_own();
    items_reach_by_names_as_by_numbers();
    dslx_core::typing::typing::looping_items_mean_nothing();
    dslx_check_declarations::work::laws::texts_have_items_by_kind();
}
