//! What each token does to the nesting.

ghost use Rattle.std.specs.Prelude.{◌≡◌, List, drop, IfOk, OnOk};
ghost use Rattle.dslx_token.specs.BracketClasses.BracketClasses.{is_one, operator_rules, bracket_class_of, bracket_classes_by, bracket_classes_of};

use crate::bracket_classes::owners::takers;
use crate::rules::kind::{
    AMP, ANDAND, AS, BANG, CARET, COMMA, CONCAT, CONST, DARROW, DOT, ELSE, ENUM, EQ, FIELDS, FN,
    FOR, GE, GT, IF, LBRACE, LBRACKET, LE, LPAREN, LT, MATCH, MINUS, NE, OROR, PERCENT, PIPE, PLUS,
    PROC, PUB, RBRACE, RBRACKET, RPAREN, SEMI, SHL, SHR, SLASH, STAR, STRUCT, TYPE,
};
use crate::rules::production;
use std::alloc::{AllocError, Global};
use xb_span::nesting::BracketClass;

/// What each of the tokens does to the nesting of those behind it, where the productions lead to them.
///
/// The work is linear in the productions and tokens.
pub fn bracket_classes(
    alloc: Global,
    productions: &[u16],
    kinds: &[u8],
) -> Result<Vec<BracketClass>, AllocError>
    ensures { IfOk result (λ bracket_classes. bracket_classes.items ≡ bracket_classes_of productions.now kinds.now) }
{
    let takers = takers(alloc, productions)?;
    bracket_classes_by(alloc, &takers, kinds)
}

/// What each token does, with the rule whose body has it.
fn bracket_classes_by(
    alloc: Global,
    rules: &[u16],
    kinds: &[u8],
) -> Result<Vec<BracketClass>, AllocError>
    ensures { IfOk result (λ bracket_classes. bracket_classes.items ≡ bracket_classes_by rules.now kinds.now) }
{
    let count = rules.len().min(kinds.len());
    let mut bracket_classes = Vec::new(alloc);
    'tokens: for place in 0..count {
        bracket_classes.push(bracket_class_of(rules[place], kinds[place]))?;
    }
    Ok(bracket_classes)
}

/// What a token of this kind does that is in the body of this rule.
fn bracket_class_of(rule: u16, kind: u8) -> BracketClass
    ensures { result ≡ bracket_class_of rule kind }
{
    match kind {
        LBRACE => if rule == production::HEADED_BLOCK || rule == production::MATCH {
            BracketClass::OpenBody
        } else {
            BracketClass::Open
        },
        LPAREN | FIELDS => BracketClass::Open,
        LBRACKET => BracketClass::OpenMark,
        RPAREN | RBRACE | RBRACKET => BracketClass::Close,
        AS | DOT | ELSE => BracketClass::Mark,
        AMP | ANDAND | BANG | CARET | CONCAT | EQ | GE | LE => BracketClass::Mark,
        NE | OROR | PERCENT | PLUS | SHL | SHR | SLASH | STAR => BracketClass::Mark,
        MINUS | PIPE | LT | GT => if is_operator_rule(rule) {
            BracketClass::Mark
        } else {
            BracketClass::Plain
        },
        // A `,` between `<` and `>` parts arguments, and not what stands in the bracket round the call.
        COMMA => if rule == production::ARGS_MORE__COMMA {
            BracketClass::Plain
        } else {
            BracketClass::Stop
        },
        SEMI | DARROW => BracketClass::Stop,
        CONST | ENUM | FN | PROC | PUB | STRUCT | TYPE => BracketClass::Item,
        FOR | IF | MATCH => BracketClass::Head,
        _ => BracketClass::Plain,
    }
}

/// Whether `-`, `|`, `<` or `>` in the body of this rule is an operator or a prefix.
fn is_operator_rule(rule: u16) -> bool
    ensures { result ≡ is_one operator_rules rule }
{
    matches!(
        rule,
        production::BINARY__MINUS
            | production::PREFIXED__MINUS
            | production::BINARY__PIPE
            | production::BINARY__LT
            | production::BINARY__GT
    )
}
