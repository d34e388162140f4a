//! Where the lines of a text stand, a law: the contract of a function that does nothing.

ghost use Rattle.std.specs.Prelude.{◌<◌, ◌+◌, ◌^◌, ℕ, List, Err, length};
ghost use Rattle.dslx_token.specs.Lexeme.{Lexeme};
ghost use Rattle.ir_builder.specs.declared.builder.Spanned.{Spanned};
ghost use Rattle.ir_builder.specs.Token.Tokens.{AreIrTokens};
ghost use Rattle.ir_text.specs.Parser.Texts.{GivesPackage, IsIrTextOf};
ghost use Rattle.ir_text.specs.Parser.Spans.Along.{AreLinesAlong, AreTokensIn, IsLineSpanIn};
ghost use Rattle.ir_text.specs.Parser.Spans.Whole.{ArePackageLines};
ghost use Rattle.xb_span.specs.declared.read_error.ReadError.TheVariants.{Broken};
ghost use Rattle.xb_span.specs.declared.span.Rule.{Rule};
ghost use Rattle.xb_span.specs.declared.span.Span.{Span};

/// The tokens of a text stand in it one behind the other, and the lines of its package are made of them in the order of the text: each
/// line's span goes from where its first token begins to where its last one ends, and no line begins before the one before it ended.
/// So a refusal for a rule names the span of a line. A count of nodes stops at 2^64 - 1, so lines are said of texts shorter than that.
pub fn spans_are_of_lines()
    ensures tokens { (text : List ℕ) (ls : List Lexeme) → AreIrTokens text ls → AreTokensIn text ls }
    ensures lines { (text : List ℕ) (spanned : Spanned) → length text + 1 < 2 ^ 64
        → (shown : IsIrTextOf text spanned) → ArePackageLines shown.tokens spanned.tree spanned.line_spans }
    ensures along { (text : List ℕ) (spanned : Spanned) → length text + 1 < 2 ^ 64
        → IsIrTextOf text spanned → AreLinesAlong spanned.line_spans 0 (length text) }
    ensures refused { (text : List ℕ) (rule : Rule) (span : Span) → length text + 1 < 2 ^ 64
        → GivesPackage text (Err (Broken rule span)) → IsLineSpanIn text span }
{}
