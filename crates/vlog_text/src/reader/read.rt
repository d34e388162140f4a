ghost use Rattle.std.specs.Prelude.{◌≡◌, ◌<◌, ◌^◌, List, Ok, length, IfOk, IfErr};
ghost use Rattle.vlog_tree.specs.WellFormed.{CanRun};
ghost use Rattle.vlog_text.specs.Token.Tokens.{HasTokens};
ghost use Rattle.vlog_text.specs.Parser.Reads.{IsParsing};
ghost use Rattle.vlog_text.specs.Reader.Given.{GivesModule, IsRefusal};
ghost use Rattle.dslx_token.specs.Lexeme.{Lexeme};

use crate::parser::{Parsed, parse};
use crate::token::{Token, tokens};
use std::alloc::Global;
use vlog_tree::VModule;
use vlog_tree::verifier::check;
use xb_span::ReadError;

/// The module of a text.
///
/// A module that it gives can be simulated.
pub fn read_v(alloc: Global, text: &str) -> Result<VModule, ReadError>
    requires { length text.now < 2 ^ 32 }
    ensures gives { IfOk result (λ m. GivesModule text.now (Ok m)) }
    ensures runs { IfOk result CanRun }
    ensures refused { IfErr result (IsRefusal text.now) }
{
    match tokens(alloc, text.as_bytes()) {
        Ok(tokens) => parsed(alloc, text, &tokens),
        Err(error) => Err(error),
    }
}

/// The module of these tokens of a text.
fn parsed(alloc: Global, text: &str, tokens: &[Token]) -> Result<VModule, ReadError>
    requires { HasTokens text.now text.now tokens.now }
    ensures gives { IfOk result (λ m. GivesModule text.now (Ok m)) }
    ensures runs { IfOk result CanRun }
    ensures refused { IfErr result (IsRefusal text.now) }
{
    match parse(alloc, tokens) {
        Ok(parsed) => judged(alloc, text, parsed),
        Err(error) => Err(error),
    }
}

/// The module that was parsed, if it breaks no rule and passes no limit.
fn judged(alloc: Global, text: &str, parsed: Parsed) -> Result<VModule, ReadError>
    requires { (ls : List Lexeme) × HasTokens text.now text.now ls × IsParsing ls (Ok parsed) }
    ensures gives { IfOk result (λ m. GivesModule text.now (Ok m)) }
    ensures runs { IfOk result CanRun }
    ensures refused { IfErr result (IsRefusal text.now) }
{
    match check(alloc, &parsed.design, &parsed.part_spans) {
        Ok(()) => Ok(parsed.design),
        Err(error) => Err(error),
    }
}
