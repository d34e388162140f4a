//! What is answered for texts, compared with tables.

use crate::shape::{shape, spanned_shape};
use dslx_parser::read;
use std::alloc::Global;
use std::test::Fail;

/// What stands round each line of a table, and round its shape.
pub struct Frame<'a> {
    pub before: &'a str,
    pub behind: &'a str,
    pub shape_before: &'a str,
    pub shape_behind: &'a str,
    /// Whether shapes have spans.
    pub has_spans: bool,
}

/// For tables of whole texts.
pub const WHOLE: Frame<'static> = Frame {
    before: "",
    behind: "",
    shape_before: "",
    shape_behind: "",
    has_spans: false,
};

/// The first line of a table for which something else is answered than stands below it, with what is answered; nothing
/// where all is as it is to be. What is wanted stands below its line, behind four blanks.
pub fn first_odd(alloc: Global, table: &str, frame: &Frame<'_>) -> Result<String, Fail> {
    let mut text = "";
    for line in table.lines() {
        match line.strip_prefix("    ") {
            None => text = line,
            Some(shape) => {
                let odd = odd_answer(alloc, text, shape, frame)?;
                if !odd.is_empty() {
                    return Ok(odd);
                }
            }
        }
    }
    Ok(String::new(alloc))
}

/// What is answered for a text in its frame, where that isn't what is wanted.
fn odd_answer(alloc: Global, text: &str, shape: &str, frame: &Frame<'_>) -> Result<String, Fail> {
    let (before, behind) = (frame.before, frame.behind);
    let framed = format!(in alloc; "{before}{text}{behind}")?;
    let found = answer(alloc, framed.as_str(), frame.has_spans)?;
    let (before, behind) = (frame.shape_before, frame.shape_behind);
    let wanted = format!(in alloc; "{before}{shape}{behind}")?;
    if found.as_str() == wanted.as_str() {
        Ok(String::new(alloc))
    } else {
        Ok(format!(in alloc; "{text} reads as {found}")?)
    }
}

/// The shape of the text's tree, with the spans of its parts where they are wanted, or its refusal.
pub fn answer(alloc: Global, text: &str, has_spans: bool) -> Result<String, Fail> {
    if text.len() >= 4_294_967_296 {
        return Err(Fail::from("long"));
    }
    match read(alloc, text) {
        Err(error) => Ok(format!(in alloc; "{error}")?),
        Ok(parsed) => if has_spans {
            Ok(spanned_shape(alloc, &parsed.module)?)
        } else {
            Ok(shape(alloc, &parsed.module)?)
        },
    }
}
