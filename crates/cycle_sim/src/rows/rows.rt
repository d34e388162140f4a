//! The rows of a file.

ghost use Rattle.std.specs.Prelude.{◌≡◌, ◌<◌, ◌≤◌, ◌^◌, Ok, length, MatchResult, IfOk};
ghost use Rattle.cycle_sim.specs.Rows.RowFile.{IsRefusal, Reads};

use crate::rows::channels::Channels;
use crate::rows::line::{LineSaid, read_line};
use crate::rows::refusal::RowError;
use base::texts::Lines;
use sqlite_items::Items;
use std::alloc::Global;
use vlog_tree::{Row, VModule};
use xb_span::{Limit, What};

/// A row, and how often it is repeated.
#[derive(Drop)]
pub struct Repeated {
    pub row: Row,
    pub times: u32,
}

/// The most rows that a file may have, repeats counted.
const MOST: u64 = 1_048_576;

const CYCLES: Limit = Limit {
    what: What::Cycles,
    found: 1_048_577,
    most: 1_048_576,
};

/// The rows that a file says for a module.
pub fn read_rows(alloc: Global, text: &[u8], design: &VModule) -> Result<Items<Repeated>, RowError>
    requires { length text.now < 2 ^ 32 }
    ensures { MatchResult result (λ rows. Reads design.now text.now (Ok rows)) (IsRefusal design.now text.now) }
{
    let known = Channels::of(alloc, design)?;
    let mut rows = Vec::new(alloc);
    let mut count = 0u64;
    let mut lines = Lines::new(text);
    'lines: while let Some(line) = lines.next() {
        match read_line(alloc, &known, line.bytes)? {
            LineSaid::Nothing => {}
            LineSaid::Repeat(repeated) => {
                count = (count + u64::from(repeated.times)).min(MOST + 1);
                rows.push(repeated)?;
            }
            LineSaid::Fault(cause) => return Err(RowError::Input(cause, line.at as u32)),
        }
    }
    if count > MOST {
        return Err(RowError::Over(CYCLES));
    }
    Ok(Items::from_vec(rows))
}
