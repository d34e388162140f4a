//! The walk over a tree.

use crate::shape::branches::{add_block, add_statement};
use crate::shape::exprs::add_expr;
use crate::shape::items::add_item;
use crate::shape::part::{Part, Parts};
use crate::shape::patterns::add_pattern;
use crate::shape::types::add_type;
use dslx_tree::{Item, Module};
use itoa::Buffer;
use std::alloc::{AllocError, Global};
use xb_span::Span;

/// The shape of a tree, its items one behind the other.
pub fn shape(alloc: Global, module: &Module) -> Result<String, AllocError> {
    printed(alloc, module, false)
}

/// The shape of a tree, with spans.
pub fn spanned_shape(alloc: Global, module: &Module) -> Result<String, AllocError> {
    printed(alloc, module, true)
}

fn printed(alloc: Global, module: &Module, has_spans: bool) -> Result<String, AllocError> {
    let mut text = String::new(alloc);
    for item in module.items.as_slice() {
        push_item(alloc, &mut text, item, has_spans)?;
    }
    Ok(text)
}

fn push_item(
    alloc: Global,
    text: &mut String,
    item: &Item,
    has_spans: bool,
) -> Result<(), AllocError> {
    let mut fresh = Parts::new(alloc);
    add_item(&mut fresh, item);
    let mut left = Parts::new(alloc);
    fresh.move_back(&mut left);
    for _ in 0..u64::MAX {
        match left.pop() {
            None => return Ok(()),
            Some(part) => push_part(text, part, &mut fresh, has_spans)?,
        }
        fresh.move_back(&mut left);
        if left.is_short() || fresh.is_short() {
            return Err(AllocError);
        }
    }
    Ok(())
}

/// Appends a piece of text, or takes a node apart.
fn push_part<'a>(
    text: &mut String,
    part: Part<'a>,
    fresh: &mut Parts<'a>,
    has_spans: bool,
) -> Result<(), AllocError> {
    match part {
        Part::Word(word) => return push_word(text, word),
        Part::Tail(tail) => return text.push_str(tail),
        Part::Digits(number) => return push_number(text, number),
        Part::Place(place) => return push_span(text, place, has_spans),
        Part::Type(ty) => add_type(fresh, ty),
        Part::Pattern(pattern) => add_pattern(fresh, pattern),
        Part::Expr(expr) => add_expr(fresh, expr),
        Part::Statement(statement) => add_statement(fresh, statement),
        Part::Block(block) => add_block(fresh, block),
    }
    Ok(())
}

fn push_word(text: &mut String, word: &str) -> Result<(), AllocError> {
    if !text.is_empty() {
        text.push_str(" ")?;
    }
    text.push_str(word)
}

fn push_number(text: &mut String, number: u128) -> Result<(), AllocError> {
    let mut buffer = Buffer::new();
    text.push_str(buffer.format(number))
}

fn push_span(text: &mut String, place: Span, has_spans: bool) -> Result<(), AllocError> {
    if !has_spans {
        return Ok(());
    }
    push_word(text, "@")?;
    push_number(text, u128::from(place.from))?;
    text.push_str("..")?;
    push_number(text, u128::from(place.to))
}
