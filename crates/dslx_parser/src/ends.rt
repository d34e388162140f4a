//! The names of the ends of procs.
ghost use Rattle.std.specs.Prelude.{◌≡◌, ℕ, List, true};
ghost use Rattle.dslx_parser.specs.Ends.{ends_are_words};
ghost use Rattle.dslx_parser.specs.Reads.{TextReads};
ghost use Rattle.dslx_tree.specs.declared.item.Module.{Module};

/// In a text that is read the ends that each `config` declares are named by words of letters, digits and `_`. So none has the slash
/// that stands in the name of a channel behind the path of the proc that makes it.
pub fn ends_are_words()
    ensures { (text : List ℕ) (m : Module) → TextReads text m → ends_are_words m ≡ true }
{}
