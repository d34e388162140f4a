//! Blocks and their statements, `if`, `match` and `for`.

use crate::shape::part::Parts;
use crate::shape::patterns::add_patterns;
use dslx_tree::{Arm, Block, Expr, For, Let, Stmt};

/// Adds `(block (let p = e) (do e) value)`.
pub fn add_block<'a>(parts: &mut Parts<'a>, block: &'a Block) {
    parts.place(block.span);
    parts.open("block");
    for statement in block.statements.as_slice() {
        parts.statement(statement);
    }
    if let Some(value) = &block.value {
        parts.expr(value.get());
    }
    parts.close();
}

pub fn add_statement<'a>(parts: &mut Parts<'a>, statement: &'a Stmt) {
    match statement {
        Stmt::Let(bound) => add_let(parts, bound),
        Stmt::Bare(expr) => {
            parts.open("do");
            parts.expr(expr);
            parts.close();
        }
    }
}

/// Adds `(let p : T = e)`.
fn add_let<'a>(parts: &mut Parts<'a>, bound: &'a Let) {
    parts.place(bound.span);
    parts.open("let");
    parts.pattern(&bound.pattern);
    if let Some(ty) = &bound.ty {
        parts.word(":");
        parts.ty(ty.get());
    }
    parts.word("=");
    parts.expr(&bound.value);
    parts.close();
}

/// Adds `(if c (block a) (block b))`.
pub fn add_if<'a>(parts: &mut Parts<'a>, condition: &'a Expr, yes: &'a Block, no: &'a Expr) {
    parts.open("if");
    parts.expr(condition);
    parts.block(yes);
    parts.expr(no);
    parts.close();
}

/// Adds `(match e (arm p q => a))`.
pub fn add_match<'a>(parts: &mut Parts<'a>, value: &'a Expr, arms: &'a [Arm]) {
    parts.open("match");
    parts.expr(value);
    for arm in arms {
        add_arm(parts, arm);
    }
    parts.close();
}

fn add_arm<'a>(parts: &mut Parts<'a>, arm: &'a Arm) {
    parts.open("arm");
    add_patterns(parts, arm.patterns.as_slice());
    parts.word("=>");
    parts.expr(&arm.value);
    parts.close();
}

/// Adds `(for i acc : T in a b (block e) s)`.
pub fn add_for<'a>(parts: &mut Parts<'a>, looped: &'a For) {
    parts.open("for");
    parts.pattern(&looped.index);
    parts.pattern(&looped.accumulator);
    if let Some(ty) = &looped.ty {
        parts.word(":");
        parts.ty(ty.get());
    }
    parts.word("in");
    parts.expr(&looped.from);
    parts.expr(&looped.to);
    parts.block(&looped.body);
    parts.expr(&looped.start);
    parts.close();
}
