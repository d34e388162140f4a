//! Numbers and names.

ghost use Rattle.std.specs.Prelude.{◌≡◌, ◌++◌, OnOk, string_bytes, decimal};
ghost use Rattle.ir_text.specs.Printer.Parts.{node_name};

use ir_tree::Node;
use itoa::Buffer;
use std::alloc::AllocError;

/// Appends a word.
pub fn push_word(text: &mut String, word: &str) -> Result<(), AllocError>
    ensures { OnOk result (string_bytes text.new ≡ string_bytes text.old ++ word.now) }
{
    text.push_str(word)
}

/// Appends a word and a number.
pub fn push_count(text: &mut String, word: &str, number: u64) -> Result<(), AllocError>
    ensures { OnOk result (string_bytes text.new ≡ string_bytes text.old ++ (word.now ++ decimal number)) }
{
    text.push_str(word)?;
    push_number(text, number)
}

fn push_number(text: &mut String, number: u64) -> Result<(), AllocError>
    ensures { OnOk result (string_bytes text.new ≡ string_bytes text.old ++ decimal number) }
{
    let mut buffer = Buffer::new();
    text.push_str(buffer.format(number))
}

/// Appends `OP.ID`.
pub fn push_name(text: &mut String, node: &Node) -> Result<(), AllocError>
    ensures { OnOk result (string_bytes text.new ≡ string_bytes text.old ++ node_name node.now) }
{
    text.push_str(node.op.name())?;
    push_count(text, ".", u64::from(node.id))
}
