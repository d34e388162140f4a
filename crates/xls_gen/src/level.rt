//! The levels of the compiler at which a design runs, and the line that says what came out.

ghost use Rattle.std.specs.Prelude.{◌≡◌, ◌++◌, length, OnErr, OnOk, string_bytes};
ghost use Rattle.xls_gen.specs.Level.{counts_line, level_line, level_name, word_sum};

use base::texts::push_decimal;
use std::alloc::{AllocError, Global};
use xb_bits::Bits;

/// What a design runs as.
#[derive(Clone, Copy, PartialEq, Eq)]
pub enum Level {
    /// The text itself.
    Dslx,
    /// Its IR package.
    Ir,
    /// The package, optimised.
    Opt,
    /// On several threads.
    Threads,
    /// Its Verilog module.
    Verilog,
}

impl Level {
    /// Its name.
    pub fn name(self) -> &'static str
        ensures { result.now ≡ level_name self }
    {
        match self {
            Level::Dslx => "dslx",
            Level::Ir => "ir",
            Level::Opt => "opt",
            Level::Threads => "threads",
            Level::Verilog => "verilog",
        }
    }
}

/// Appends a line of the level, of how many words there are, and of their sum modulo 2^32. It takes time as the words
/// are many; after want of memory the text is as before.
pub fn push_line(
    alloc: Global,
    text: &mut Vec<u8>,
    level: Level,
    words: &[Bits],
) -> Result<(), AllocError>
    ensures ok { OnOk result (text.new.items ≡ text.old.items ++ level_line level words.now) }
    ensures err { OnErr result (text.new.items ≡ text.old.items) }
{
    let mut line = String::new(alloc);
    push_counts(&mut line, level, words.len() as u64, word_sum(words))?;
    text.extend_from_slice(line.as_str().as_bytes())
}

/// Appends the line of so many words with this sum.
#[tactic(auto, unfolding(crate::specs::Level::counts_line))]
fn push_counts(line: &mut String, level: Level, count: u64, sum: u32) -> Result<(), AllocError>
    ensures { OnOk result (string_bytes line.new ≡ string_bytes line.old ++ counts_line level count sum) }
{
    line.push_str(level.name())?;
    line.push_str(" words ")?;
    push_decimal(line, count)?;
    line.push_str(" sum ")?;
    push_decimal(line, u64::from(sum))?;
    line.push_str("\n")
}

/// The sum of words, modulo 2^32.
fn word_sum(words: &[Bits]) -> u32
    ensures { result ≡ word_sum words.now }
{
    let mut sum = 0u32;
    'words: for word in words {
        sum = sum.wrapping_add((word.value() % (1 << 32)) as u32);
    }
    sum
}
