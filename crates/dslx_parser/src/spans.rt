//! The spans of the parts of a DSLX text's tree.
ghost use Rattle.std.specs.Prelude.{ℕ, List, length};
ghost use Rattle.dslx_parser.specs.Spans.Along.{AreAlong};
ghost use Rattle.dslx_parser.specs.Spans.Places.{ItemsHaveSpans};
ghost use Rattle.dslx_parser.specs.Syntax.Trees.{IsTextOf};
ghost use Rattle.dslx_token.specs.Lexeme.{Lexeme};
ghost use Rattle.dslx_token.specs.Tokens.{Tokens};
ghost use Rattle.dslx_tree.specs.declared.item.Module.{Module};

/// The tokens of a text stand in it one behind the other; and each part of the tree of a text has its span within that of
/// the part in which it stands, behind those before it. No name is empty.
pub fn spans_are_nested()
    ensures along { (text : List ℕ) (ls : List Lexeme) → Tokens text ls → AreAlong ls 0 (length text) }
    ensures placed { (ls : List Lexeme) (m : Module) (to : ℕ) → AreAlong ls 0 to → IsTextOf ls m → ItemsHaveSpans m 0 to }
{}
