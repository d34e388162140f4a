//! The global environment of a text has of each item what its text comes to by it.

ghost use Rattle.dslx_tree.specs.declared.item.Module.{Module};
ghost use Rattle.dslx_meaning.specs.Rules.ModuleRules.{globals_of};
ghost use Rattle.dslx_meaning.specs.Rules.Namesakes.{told_apart};
ghost use Rattle.dslx_check_rules.specs.Interned.{AreDistinct};
ghost use Rattle.dslx_check_facts.specs.Names.{names_of};
ghost use Rattle.dslx_check_declarations.specs.Work.Settled.{DeclarationsSettle, FunctionsSettle, ItemsSettle};

/// Of each item, told apart from others of its name, the global environment of a text has what the item's text comes to by it, and of each
/// instance of a function whether it is sound and how large it is.
pub fn items_settle()
    ensures items { (text : Module) → AreDistinct (names_of text) → ItemsSettle text (globals_of (told_apart text)) }
    ensures functions { (text : Module) → AreDistinct (names_of text) → FunctionsSettle text (globals_of (told_apart text)) }
{
    dslx_core::typing::typing::looping_items_mean_nothing();
}

/// So it has of each part of a declaration, also of a proc's, and of one that is asked for by its own group.
pub fn declarations_settle()
    ensures { (text : Module) → DeclarationsSettle text (globals_of (told_apart text)) }
{
    dslx_core::typing::typing::looping_items_mean_nothing();
    dslx_core::typing::depends::a_group_sees_types_alone();
}
