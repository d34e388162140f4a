//! What messages print.

use std::alloc::AllocError;
use std::fmt::{self, Write};
use std::test::Fail;
use xb_span::{Limit, ReadError, Rule, Span, What};

#[test]
fn a_limit_prints_its_numbers(rt: HostRuntime) -> Result<(), Fail> {
    let limit = Limit {
        what: What::File,
        found: 4_194_305,
        most: 4_194_304,
    };
    let text = format!(in rt.alloc(); "{limit}")?;
    assert_eq!(rt; text.as_str(), "limit file: 4194305, at most 4194304");
    Ok(())
}

#[test]
fn what_prints_its_word(rt: HostRuntime) -> Result<(), Fail> {
    let nesting = What::Nesting;
    let cycles = What::Cycles;
    let text = format!(in rt.alloc(); "{nesting} {cycles}")?;
    assert_eq!(rt; text.as_str(), "nesting cycles");
    Ok(())
}

#[test]
fn refusals_print_their_lines(rt: HostRuntime) -> Result<(), Fail> {
    let place = Span { from: 59, to: 71 };
    let broken = ReadError::Broken(Rule(12), place);
    let syntax = ReadError::Syntax(6);
    let text = format!(in rt.alloc(); "{syntax}, {broken}")?;
    assert_eq!(rt; text.as_str(), "syntax at 6, rule 12 at 59..71");
    Ok(())
}

/// A writer that refuses.
#[derive(Drop)]
struct Refuses;

impl Write for Refuses {
    fn write_str(&mut self, _text: &str) -> fmt::Result {
        Err(fmt::Error)
    }
}

#[test]
fn a_writer_that_refuses_is_told(rt: HostRuntime) {
    let memory = ReadError::OutOfMemory;
    assert!(rt; write!(Refuses, "{memory}").is_err());
}

#[test]
fn want_of_memory_is_a_refusal(rt: HostRuntime) {
    assert_eq!(rt; ReadError::from(AllocError), ReadError::OutOfMemory);
    let place = Span { from: 3, to: 5 };
    assert_ne!(rt; ReadError::Broken(Rule(7), place), ReadError::Syntax(3));
}
