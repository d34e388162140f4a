//! Where the parts of a module stand in its text.

ghost use Rattle.std.specs.Prelude.{◌≡◌, ◌<◌, ◌^◌, ℕ, List, length};
ghost use Rattle.dslx_token.specs.Lexeme.{Lexeme};
ghost use Rattle.vlog_text.specs.Token.Tokens.{HasTokens};
ghost use Rattle.vlog_text.specs.declared.builder.parsed.Parsed.{Parsed};
ghost use Rattle.vlog_text.specs.Parser.Reads.{Reads};
ghost use Rattle.vlog_text.specs.Parser.Spans.{LexemesAlong, AreParts, AreModuleTokens, HaveLiterals, ModuleTokens, PartsAlong, all_parts, literal_ends, spans_of};

/// The tokens of a text stand in it one behind the other. Where they read as a module, they are those of its parts, and the span that
/// is kept of each part is from its first token to its last one. So parts stand one behind the other, and each literal of the text
/// ends within its assignment or set.
pub fn spans_are_those_of_tokens()
    ensures along { (text : List ℕ) (ls : List Lexeme) → HasTokens text text ls → LexemesAlong ls 0 (length text) }
    ensures placed { (ls : List Lexeme) (p : Parsed) → Reads ls p
        → (m : ModuleTokens) × AreModuleTokens ls m × (p.part_spans ≡ spans_of m)
        × (p.part_spans.literals ≡ literal_ends ls) × AreParts m p.design × (length ls < 2 ^ 64 → HaveLiterals m p.design) }
    ensures nested { (ls : List Lexeme) (m : ModuleTokens) (from to : ℕ)
        → LexemesAlong ls from to → AreModuleTokens ls m → PartsAlong (all_parts m) from to }
{}
