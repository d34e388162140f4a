//! The tree of a DSLX text, by the rules of its grammar: each rule makes a part of the tree of the parts of its symbols.
//!
//! There is no code here but laws: the definitions in `specs/` are for what reads and prints texts.
ghost use Rattle.std.specs.Prelude.{◌≡◌, map};
ghost use Rattle.dslx_token.specs.Rules.Dslx.{dslx};
ghost use Rattle.dslx_parser.specs.Syntax.Trees.{semantic_actions, rule_of};

/// The rules that make parts are those of the grammar, in its order.
pub fn all_rules_make()
    ensures { map rule_of semantic_actions ≡ dslx.rules }
{}
