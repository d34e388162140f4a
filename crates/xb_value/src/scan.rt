//! Reads the numbers and brackets of a value's text, byte by byte.

ghost use Rattle.std.specs.Prelude.{◌≡◌, ◌<◌, ◌*◌, ◌^◌, IfOk, reverse, length};
ghost use Rattle.xb_value.specs.Inner.Scanner.{class_of, started, step, begin, first, next, digits, follow, close, step_in, ended};
ghost use Rattle.xb_value.specs.Inner.ScannerState.{state_of, Stepped, FitsDigits, IsSmall};
ghost use Rattle.xb_value.specs.Inner.Scanned.{IsScanOf};
ghost use Rattle.std.specs.Option.{option_map};

use crate::token::{Bracket, Token};
use sqlite_items::Items as Seq;
use std::alloc::{AllocError, Global};

/// What a byte is to the reader.
#[derive(Clone, Copy)]
pub enum Class {
    Space,
    Comma,
    Ex,
    Opens(Bracket),
    Closes(Bracket),
    Digit(u8),
    Other,
}

/// What may come next.
#[derive(Clone, Copy)]
pub enum Mode {
    /// The text's value.
    Start,
    /// A value, or the bracket's end.
    First,
    /// A value.
    Next,
    /// The `x` of the number from this position.
    Zero(u32),
    /// Its first digit.
    Hex(u32),
    /// More digits, or what follows a value. It has the position, the count of digits and the number so far.
    Digits(u32, u8, u128),
    /// What follows a value.
    After,
}

fn class_of(byte: u8) -> Class
    ensures value { result ≡ class_of byte }
    ensures small { IsSmall result }
{
    match byte {
        b' ' => Class::Space,
        b',' => Class::Comma,
        b'x' => Class::Ex,
        b'(' => Class::Opens(Bracket::Round),
        b'[' => Class::Opens(Bracket::Square),
        b')' => Class::Closes(Bracket::Round),
        b']' => Class::Closes(Bracket::Square),
        b'0'..=b'9' => Class::Digit(byte - b'0'),
        b'A'..=b'F' => Class::Digit(byte - b'A' + 10),
        b'a'..=b'f' => Class::Digit(byte - b'a' + 10),
        _ => Class::Other,
    }
}

/// The open brackets, the numbers and brackets so far, and what may come next.
#[derive(Drop)]
pub struct Scanner {
    stack: Vec<Bracket>,
    tokens: Vec<Token>,
    mode: Mode,
}

impl Scanner {
    fn new(alloc: Global) -> Scanner
        ensures { state_of result ≡ started }
    {
        Scanner {
            stack: Vec::new(alloc),
            tokens: Vec::new(alloc),
            mode: Mode::Start,
        }
    }

    /// The numbers and brackets, where the text may end here.
    fn finish(self) -> Result<Option<Vec<Token>>, AllocError>
        ensures { IfOk result (λ tokens. option_map (λ v. v.items) tokens ≡ ended (state_of self)) }
    {
        let Scanner {
            stack,
            mut tokens,
            mode,
        } = self;
        if !stack.is_empty() {
            return Ok(None);
        }
        match mode {
            Mode::Digits(start, _, value) => {
                tokens.push(Token::Number(start, value))?;
                Ok(Some(tokens))
            }
            Mode::After => Ok(Some(tokens)),
            _ => Ok(None),
        }
    }

    /// Takes a byte at its position, or answers that no value text goes on so.
    fn step(&mut self, at: u32, class: Class) -> Result<bool, AllocError>
        requires sound { FitsDigits self.old.mode }
        requires small { IsSmall class }
        ensures { IfOk result (λ went. Stepped (step (state_of self.old) at class) went (state_of self.new)) }
    {
        match self.mode {
            Mode::Start => self.begin(at, class),
            Mode::First => self.first(at, class),
            Mode::Next => self.next(at, class),
            Mode::Zero(start) => Ok(self.zero(start, class)),
            Mode::Hex(start) => Ok(self.hex(start, class)),
            Mode::Digits(start, count, value) => self.digits(start, count, value, class),
            Mode::After => self.follow(class),
        }
    }

    /// A value begins.
    fn begin(&mut self, at: u32, class: Class) -> Result<bool, AllocError>
        ensures { IfOk result (λ went. Stepped (begin (reverse self.old.stack.items) self.old.tokens.items at class) went (state_of self.new)) }
    {
        match class {
            Class::Digit(0) => {
                self.mode = Mode::Zero(at);
                Ok(true)
            }
            Class::Opens(bracket) => {
                self.stack.push(bracket)?;
                self.tokens.push(Token::Open(at, bracket))?;
                self.mode = Mode::First;
                Ok(true)
            }
            _ => Ok(false),
        }
    }

    /// Behind an opening bracket.
    fn first(&mut self, at: u32, class: Class) -> Result<bool, AllocError>
        requires { self.old.mode ≡ Mode.First }
        ensures { IfOk result (λ went. Stepped (first (reverse self.old.stack.items) self.old.tokens.items at class) went (state_of self.new)) }
    {
        match class {
            Class::Space => Ok(true),
            Class::Closes(bracket) => self.close(bracket),
            _ => self.begin(at, class),
        }
    }

    /// Behind a comma.
    fn next(&mut self, at: u32, class: Class) -> Result<bool, AllocError>
        requires { self.old.mode ≡ Mode.Next }
        ensures { IfOk result (λ went. Stepped (next (reverse self.old.stack.items) self.old.tokens.items at class) went (state_of self.new)) }
    {
        match class {
            Class::Space => Ok(true),
            _ => self.begin(at, class),
        }
    }

    /// Behind a number's `0`.
    fn zero(&mut self, start: u32, class: Class) -> bool
        ensures { Stepped (step_in (Mode.Zero start) (reverse self.old.stack.items) self.old.tokens.items 0 class) result (state_of self.new) }
    {
        match class {
            Class::Ex => {
                self.mode = Mode::Hex(start);
                true
            }
            _ => false,
        }
    }

    /// Behind a number's `0x`.
    fn hex(&mut self, start: u32, class: Class) -> bool
        ensures { Stepped (step_in (Mode.Hex start) (reverse self.old.stack.items) self.old.tokens.items 0 class) result (state_of self.new) }
    {
        match class {
            Class::Digit(digit) => {
                self.mode = Mode::Digits(start, 1, u128::from(digit));
                true
            }
            _ => false,
        }
    }

    /// In a number of some digits so far.
    fn digits(
        &mut self,
        start: u32,
        count: u8,
        value: u128,
        class: Class,
    ) -> Result<bool, AllocError>
        requires sound { value < 2 ^ (4 * count) }
        requires small { IsSmall class }
        ensures { IfOk result (λ went. Stepped (digits (reverse self.old.stack.items) self.old.tokens.items start count value class) went (state_of self.new)) }
    {
        if let Class::Digit(digit) = class {
            if count >= 32 {
                return Ok(false);
            }
            self.mode = Mode::Digits(start, count + 1, value * 16 + u128::from(digit));
            return Ok(true);
        }
        self.tokens.push(Token::Number(start, value))?;
        self.follow(class)
    }

    /// Behind a value.
    fn follow(&mut self, class: Class) -> Result<bool, AllocError>
        ensures { IfOk result (λ went. Stepped (follow (reverse self.old.stack.items) self.old.tokens.items class) went (state_of self.new)) }
    {
        if self.stack.is_empty() {
            return Ok(false);
        }
        match class {
            Class::Space => {
                self.mode = Mode::After;
                Ok(true)
            }
            Class::Comma => {
                self.mode = Mode::Next;
                Ok(true)
            }
            Class::Closes(bracket) => self.close(bracket),
            _ => Ok(false),
        }
    }

    /// The innermost bracket closes.
    fn close(&mut self, bracket: Bracket) -> Result<bool, AllocError>
        ensures { IfOk result (λ went. Stepped (close (reverse self.old.stack.items) self.old.tokens.items bracket) went (state_of self.new)) }
    {
        match self.stack.pop() {
            Some(open) if open == bracket => {
                self.tokens.push(Token::Close)?;
                self.mode = Mode::After;
                Ok(true)
            }
            _ => Ok(false),
        }
    }
}

/// The numbers and brackets of a text, or the position of its first fault.
#[derive(Drop)]
pub enum Scanned {
    Tokens(Seq<Token>),
    Fault(u32),
}

/// Reads the numbers and brackets of a value's text, or finds the first byte with which it is a prefix of none.
/// It takes time and memory as the text is long.
pub fn scan(alloc: Global, text: &[u8]) -> Result<Scanned, AllocError>
    requires { length text.now < 2 ^ 32 }
    ensures { IfOk result (IsScanOf text.now) }
{
    let mut scanner = Scanner::new(alloc);
    let mut at = 0u32;
    'bytes: for byte in text {
        if !scanner.step(at, class_of(*byte))? {
            return Ok(Scanned::Fault(at));
        }
        at += 1;
    }
    match scanner.finish()? {
        Some(tokens) => Ok(Scanned::Tokens(Seq::from_vec(tokens))),
        None => Ok(Scanned::Fault(at)),
    }
}
