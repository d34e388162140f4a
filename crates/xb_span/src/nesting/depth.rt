ghost use Rattle.std.specs.Prelude.{◌≡◌, ◌+◌, ◌-◌, ◌≤◌, IfOk, OnOk, nat_lt};
ghost use Rattle.xb_span.specs.Nesting.Nesting.{at_start, behind, closed, depth_of, marked, first_past, nesting_in, opened, stopped};

use crate::nesting::bracket_class::BracketClass;
use std::alloc::{AllocError, Global};
use std::marker::Model;

/// The greatest nesting that a token may have.
pub const MOST: u64 = 128;

/// The index of the first token whose nesting passes [`MOST`], if there is one.
///
/// The work is linear, and the memory is bounded by `MOST`.
pub fn first_over(
    alloc: Global,
    bracket_classes: &[BracketClass],
) -> Result<Option<usize>, AllocError>
    ensures { IfOk result (λ index. index ≡ first_past bracket_classes.now) }
{
    let mut around = Around::new(alloc);
    for (index, &role) in bracket_classes.iter().enumerate() {
        if around.nesting(role) > MOST {
            return Ok(Some(index));
        }
        around.read(role)?;
    }
    Ok(None)
}

/// What is open before a token.
#[derive(Drop)]
struct Around {
    /// The marks in each open bracket, those of the innermost one last.
    brackets: Vec<u64>,
    /// The marks outside all brackets.
    outside: u64,
    heads: u64,
    /// All that counts.
    depth: u64,
}

impl Model for Around {
    ghost use Rattle.std.specs.Prelude.{◌≡◌, reverse};
    ghost use Rattle.xb_span.specs.Nesting.Nesting.{Around as Open, depth_of};

    ghost Value = { Open };

    ghost view = { λ a. record { brackets = reverse a.brackets.items; outside = a.outside; heads = a.heads } };

    ghost invariant = { λ a. a.depth ≡ depth_of (record { brackets = reverse a.brackets.items; outside = a.outside; heads = a.heads }) };
}

impl Around {
    fn new(alloc: Global) -> Around
        ensures { result ≡ at_start }
    {
        Around {
            brackets: Vec::new(alloc),
            outside: 0,
            heads: 0,
            depth: 0,
        }
    }

    /// The nesting of a token of this bracket class.
    fn nesting(&self, role: BracketClass) -> u64
        ensures { result ≡ nesting_in self.now role }
    {
        match role {
            BracketClass::OpenBody if self.heads > 0 => self.depth - 1,
            _ => self.depth,
        }
    }

    /// Goes on behind a token of this bracket class.
    fn read(&mut self, role: BracketClass) -> Result<(), AllocError>
        requires { nesting_in self.old role ≤ MOST }
        ensures { OnOk result (self.new ≡ behind self.old role) }
    {
        match role {
            BracketClass::Open => self.open(),
            BracketClass::OpenMark => {
                self.mark()?;
                self.open()
            }
            BracketClass::OpenBody => {
                self.end_head();
                self.open()
            }
            BracketClass::Close => {
                self.close();
                Ok(())
            }
            BracketClass::Mark => self.mark(),
            BracketClass::Stop => self.stop(),
            BracketClass::Item => {
                self.depth -= self.outside;
                self.outside = 0;
                Ok(())
            }
            BracketClass::Head => {
                self.heads += 1;
                self.depth += 1;
                Ok(())
            }
            BracketClass::Plain => Ok(()),
        }
    }

    fn open(&mut self) -> Result<(), AllocError>
        requires { depth_of self.old ≤ MOST + 1 }
        ensures { OnOk result (self.new ≡ opened self.old) }
    {
        self.brackets.push(0)?;
        self.depth += 1;
        Ok(())
    }

    fn mark(&mut self) -> Result<(), AllocError>
        requires { depth_of self.old ≤ MOST }
        ensures { OnOk result (self.new ≡ marked self.old) }
    {
        match self.brackets.pop() {
            Some(marks) => self.brackets.push(marks + 1)?,
            None => self.outside += 1,
        }
        self.depth += 1;
        Ok(())
    }

    fn end_head(&mut self)
        ensures { self.new ≡ record self.old { heads = self.old.heads - 1 } }
    {
        if self.heads > 0 {
            self.heads -= 1;
            self.depth -= 1;
        }
    }

    fn close(&mut self)
        ensures { self.new ≡ record self.old { brackets = closed self.old.brackets } }
    {
        if let Some(marks) = self.brackets.pop() {
            self.depth -= marks + 1;
        }
    }

    fn stop(&mut self) -> Result<(), AllocError>
        ensures { OnOk result (self.new ≡ record self.old { brackets = stopped self.old.brackets }) }
    {
        if let Some(marks) = self.brackets.pop() {
            self.brackets.push(0)?;
            self.depth -= marks;
        }
        Ok(())
    }
}
