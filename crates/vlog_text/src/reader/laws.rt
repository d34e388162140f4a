//! Laws, each the contract of a function that calls the laws below it.

ghost use Rattle.std.specs.Prelude.{◌≡◌, ℕ, Err, List, Result};
ghost use Rattle.dslx_token.specs.Lexeme.{Lexeme};
ghost use Rattle.vlog_tree.specs.declared.module.VModule.{VModule};
ghost use Rattle.vlog_text.specs.Parser.Spans.{AreModuleTokens, IsSpanOfPart, ModuleTokens};
ghost use Rattle.vlog_text.specs.Reader.Given.{GivesModule};
ghost use Rattle.vlog_text.specs.Token.Tokens.{HasTokens};
ghost use Rattle.xb_span.specs.declared.read_error.ReadError.{ReadError};
ghost use Rattle.xb_span.specs.declared.read_error.ReadError.TheVariants.{Broken};
ghost use Rattle.xb_span.specs.declared.span.Rule.{Rule};
ghost use Rattle.xb_span.specs.declared.span.Span.{Span};

/// A text gives one module, or is refused for one cause.
pub fn one_module()
    ensures { (text : List ℕ) (a b : Result VModule ReadError) → GivesModule text a → GivesModule text b → a ≡ b }
{
    crate::token::one_list_of_tokens();
    crate::parser::one_parsing();
    vlog_tree::verifier::laws::one_judgement();
}

/// A text that breaks a rule is refused at one of its parts, from the start of its first token to the end of its last one.
pub fn rules_are_broken_at_parts()
    ensures { (text : List ℕ) (rule : Rule) (span : Span) → GivesModule text (Err (Broken rule span))
        → (ls : List Lexeme) × (m : ModuleTokens) × HasTokens text text ls × AreModuleTokens ls m × IsSpanOfPart m span }
{
    crate::parser::spans_are_those_of_tokens();
}
