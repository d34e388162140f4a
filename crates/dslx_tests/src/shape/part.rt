//! What a shape is made of.

use dslx_tree::{Block, Expr, Ident, Pattern, Stmt, TypeExpr};
use std::alloc::Global;
use xb_span::Span;

/// A part of a shape: a piece of its text, or a node that is still to be taken apart.
#[derive(Clone, Copy)]
pub enum Part<'a> {
    /// A word, with a blank before it where it isn't the first one.
    Word(&'a str),
    /// What stands directly behind the word before.
    Tail(&'a str),
    /// A number directly behind the word before.
    Digits(u128),
    /// A span, which is a word where spans are wanted.
    Place(Span),
    Type(&'a TypeExpr),
    Pattern(&'a Pattern),
    Expr(&'a Expr),
    Statement(&'a Stmt),
    Block(&'a Block),
}

/// Parts in the order of the text.
#[derive(Drop)]
pub struct Parts<'a> {
    parts: Vec<Part<'a>>,
    /// Whether a part is missing, since there was no memory for it.
    is_short: bool,
}

impl<'a> Parts<'a> {
    pub fn new(alloc: Global) -> Parts<'a> {
        Parts {
            parts: Vec::new(alloc),
            is_short: false,
        }
    }

    pub fn add(&mut self, part: Part<'a>) {
        if self.parts.push(part).is_err() {
            self.is_short = true;
        }
    }

    /// Moves all parts to what is left, where the first one is then the last.
    pub fn move_back(&mut self, left: &mut Parts<'a>) {
        let count = self.parts.len();
        for i in 0..count {
            left.add(self.parts[count - 1 - i]);
        }
        self.parts.clear();
    }

    /// Takes the last part.
    pub fn pop(&mut self) -> Option<Part<'a>> {
        self.parts.pop()
    }

    pub fn is_short(&self) -> bool {
        self.is_short
    }

    pub fn word(&mut self, word: &'a str) {
        self.add(Part::Word(word));
    }

    pub fn tail(&mut self, tail: &'a str) {
        self.add(Part::Tail(tail));
    }

    pub fn digits(&mut self, number: u128) {
        self.add(Part::Digits(number));
    }

    pub fn place(&mut self, place: Span) {
        self.add(Part::Place(place));
    }

    /// Begins a node of that name.
    pub fn open(&mut self, name: &'a str) {
        self.word("(");
        self.tail(name);
    }

    /// Ends a node.
    pub fn close(&mut self) {
        self.tail(")");
    }

    pub fn name(&mut self, ident: &'a Ident) {
        self.place(ident.span);
        self.word(ident.name.as_str());
    }

    pub fn ty(&mut self, ty: &'a TypeExpr) {
        self.add(Part::Type(ty));
    }

    pub fn pattern(&mut self, pattern: &'a Pattern) {
        self.add(Part::Pattern(pattern));
    }

    pub fn expr(&mut self, expr: &'a Expr) {
        self.add(Part::Expr(expr));
    }

    pub fn statement(&mut self, statement: &'a Stmt) {
        self.add(Part::Statement(statement));
    }

    pub fn block(&mut self, block: &'a Block) {
        self.add(Part::Block(block));
    }
}
