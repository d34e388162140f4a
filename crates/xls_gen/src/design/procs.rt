//! The texts of the procs in the chain.

ghost use Rattle.std.specs.Prelude.{◌≡◌, ◌++◌, decimal, OnOk, string_bytes};
ghost use Rattle.xls_gen.specs.Design.ProcText.{config_start, members, next_state, proc_config, proc_end, proc_init, proc_receive, proc_send, proc_start, proc_text, procs_text, sent_text};

use crate::design::draw::{ProcKind, next_drawn, proc_kind};
use base::texts::push_decimal;
use std::alloc::AllocError;

/// Appends the texts of so many procs.
pub fn push_procs(text: &mut String, seed: u64, procs: u32) -> Result<(), AllocError>
    ensures { OnOk result (string_bytes text.new ≡ string_bytes text.old ++ procs_text seed procs) }
{
    let mut number = seed;
    'procs: for index in 0..procs {
        number = next_drawn(number);
        push_proc(text, u64::from(index), number)?;
    }
    Ok(())
}

/// Appends the text of the proc with this index and this number.
#[tactic(auto, unfolding(crate::specs::Design::ProcText::proc_text))]
fn push_proc(text: &mut String, index: u64, number: u64) -> Result<(), AllocError>
    ensures { OnOk result (string_bytes text.new ≡ string_bytes text.old ++ proc_text index number) }
{
    let kind = proc_kind(number);
    push_start(text, index)?;
    push_config(text)?;
    push_init(text)?;
    push_receive(text)?;
    push_sent(text, kind, number)?;
    push_end(text, kind)
}

/// Appends the name and the members.
#[tactic(auto, unfolding(crate::specs::Design::ProcText::proc_start))]
fn push_start(text: &mut String, index: u64) -> Result<(), AllocError>
    ensures { OnOk result (string_bytes text.new ≡ string_bytes text.old ++ proc_start index) }
{
    text.push_str("proc P")?;
    push_decimal(text, index)?;
    push_members(text)
}

#[tactic(auto, unfolding(crate::specs::Design::ProcText::members))]
fn push_members(text: &mut String) -> Result<(), AllocError>
    ensures { OnOk result (string_bytes text.new ≡ string_bytes text.old ++ members) }
{
    text.push_str(" { a: chan<u32> in; b: chan<u32> out;\n")
}

/// Appends the beginning of a `config` with an input and an output.
#[tactic(auto, unfolding(crate::specs::Design::ProcText::config_start))]
pub fn push_config_start(text: &mut String) -> Result<(), AllocError>
    ensures { OnOk result (string_bytes text.new ≡ string_bytes text.old ++ config_start) }
{
    text.push_str("  config(a: chan<u32> in, b: chan<u32> out) {")
}

#[tactic(auto, unfolding(crate::specs::Design::ProcText::proc_config))]
fn push_config(text: &mut String) -> Result<(), AllocError>
    ensures { OnOk result (string_bytes text.new ≡ string_bytes text.old ++ proc_config) }
{
    push_config_start(text)?;
    text.push_str(" (a, b) }\n")
}

#[tactic(auto, unfolding(crate::specs::Design::ProcText::proc_init))]
fn push_init(text: &mut String) -> Result<(), AllocError>
    ensures { OnOk result (string_bytes text.new ≡ string_bytes text.old ++ proc_init) }
{
    text.push_str("  init { u32:0 }\n")
}

#[tactic(auto, unfolding(crate::specs::Design::ProcText::proc_receive))]
fn push_receive(text: &mut String) -> Result<(), AllocError>
    ensures { OnOk result (string_bytes text.new ≡ string_bytes text.old ++ proc_receive) }
{
    text.push_str("  next(s: u32) { let (t, x) = recv(join(), a); let y = ")
}

/// Appends what is sent for a word.
fn push_sent(text: &mut String, kind: ProcKind, number: u64) -> Result<(), AllocError>
    ensures { OnOk result (string_bytes text.new ≡ string_bytes text.old ++ sent_text kind number) }
{
    match kind {
        ProcKind::Adds => push_operand(text, "x + u32:", number),
        ProcKind::Xors => push_operand(text, "x ^ u32:", number),
        ProcKind::Subtracts => push_operand(text, "x - u32:", number),
        ProcKind::Sums => text.push_str("s + x"),
    }
}

/// Appends what stands before a number, and the number.
fn push_operand(text: &mut String, before: &str, number: u64) -> Result<(), AllocError>
    ensures { OnOk result (string_bytes text.new ≡ string_bytes text.old ++ (before.now ++ decimal number)) }
{
    text.push_str(before)?;
    push_decimal(text, number)
}

/// Appends the send and the next state.
#[tactic(auto, unfolding(crate::specs::Design::ProcText::proc_end))]
fn push_end(text: &mut String, kind: ProcKind) -> Result<(), AllocError>
    ensures { OnOk result (string_bytes text.new ≡ string_bytes text.old ++ proc_end kind) }
{
    push_send(text)?;
    text.push_str(next_state(kind))?;
    text.push_str(" } }\n")
}

#[tactic(auto, unfolding(crate::specs::Design::ProcText::proc_send))]
fn push_send(text: &mut String) -> Result<(), AllocError>
    ensures { OnOk result (string_bytes text.new ≡ string_bytes text.old ++ proc_send) }
{
    text.push_str("; send(t, b, y); ")
}

/// The next state, as it is written.
fn next_state(kind: ProcKind) -> &'static str
    ensures { result.now ≡ next_state kind }
{
    match kind {
        ProcKind::Adds | ProcKind::Xors | ProcKind::Subtracts => "s",
        ProcKind::Sums => "y",
    }
}
