//! That constants have by what is kept the values that they have by what is known.

ghost use Rattle.std.specs.Prelude.{◌≡◌, ℕ, List, [], Bool, length, true};
ghost use Rattle.std.specs.List.{list_all};
ghost use Rattle.dslx_tree.specs.declared.expr.Expr.{Expr};
ghost use Rattle.dslx_tree.specs.declared.item.Module.{Module};
ghost use Rattle.dslx_meaning.specs.Environment.{Given};
ghost use Rattle.dslx_meaning.specs.Meaning.{value_of};
ghost use Rattle.dslx_meaning.specs.Rules.Mentions.{mentioned, names_mentioned};
ghost use Rattle.dslx_meaning.specs.Rules.ModuleRules.{globals_of};
ghost use Rattle.dslx_meaning.specs.Rules.Namesakes.{told_apart};
ghost use Rattle.dslx_meaning.specs.Names.ConstMachine.Kept.{KeptValues, kept_within};
ghost use Rattle.dslx_check_facts.specs.Kept.{AreKeptAlike};
ghost use Rattle.dslx_check_facts.specs.Names.{HasNoMarks, MentionNoMark};

/// In any text, also one with faults: where an expression mentions only items that are kept, with all that they mention, it has the value by
/// the text and what is kept of it that it has by what is known of the text, whatever is bound around it, and whether it breaks rules or
/// not. Of a type that is known its text is evaluated, of a function its body; what reaches itself is hidden, and so are types that are refused.
pub fn kept_values_are_known()
    ensures { (text : Module) → HasNoMarks text → (kept : KeptValues) (P : List ℕ → Bool) → AreKeptAlike (globals_of (told_apart text)) kept P
        → (bound : List Given) (e : Expr) → list_all P (names_mentioned (globals_of (told_apart text)).whole (mentioned e [])) ≡ true → MentionNoMark (mentioned e [])
        → value_of e (record { items = kept_within kept text (length text.items); bound = bound }) ≡ value_of e (record { items = (globals_of (told_apart text)).items; bound = bound }) }
{}
