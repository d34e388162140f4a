//! What is known of a text by its own global environment, of names and of values.

ghost use Rattle.dslx_tree.specs.declared.item.Module.{Module};
ghost use Rattle.dslx_meaning.specs.Rules.ModuleRules.{globals_of};
ghost use Rattle.dslx_meaning.specs.Rules.Namesakes.{told_apart};
ghost use Rattle.dslx_check_items.specs.Reaching.{AreReached, item_needs};
ghost use Rattle.dslx_check_items.specs.declared.reaching.Reaching.{Reaching};
ghost use Rattle.dslx_check_facts.specs.Names.{HasNoMarks};
ghost use Rattle.dslx_check_declarations.specs.Work.Text.{IsTextEnv};

/// The text's own global environment is one of the text, whatever faults it has: of what is known so far all else follows.
pub fn texts_are_known()
    ensures { (text : Module) (reaching : Reaching) → HasNoMarks text → AreReached (item_needs text) reaching → IsTextEnv text reaching (globals_of (told_apart text)) }
{
    crate::text::laws::texts_are_known_by_names();
    crate::text::values::kept_values_are_known();
}
