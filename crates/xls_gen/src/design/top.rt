//! The text of the proc that makes the channels and spawns the others.

ghost use Rattle.std.specs.Prelude.{◌≡◌, ◌<◌, ◌≤◌, ◌^◌, ◌++◌, OnOk, string_bytes};
ghost use Rattle.xls_gen.specs.Design.TopText.{channel_ends, channel_made, input_end, last_spawn, link_text, links_text, output_end, spawn_start, top_end, top_name, top_start, top_text};

use crate::design::draw::{next_drawn, out_depth};
use crate::design::procs::push_config_start;
use base::texts::push_decimal;
use std::alloc::AllocError;

/// Appends the proc over so many procs.
pub fn push_top(text: &mut String, seed: u64, procs: u32) -> Result<(), AllocError>
    requires { 1 ≤ procs }
    ensures { OnOk result (string_bytes text.new ≡ string_bytes text.old ++ top_text seed procs) }
{
    let last = procs - 1;
    push_top_start(text)?;
    push_links(text, seed, last)?;
    push_last_spawn(text, u64::from(last))?;
    push_top_end(text)
}

#[tactic(auto, unfolding(crate::specs::Design::TopText::top_start))]
fn push_top_start(text: &mut String) -> Result<(), AllocError>
    ensures { OnOk result (string_bytes text.new ≡ string_bytes text.old ++ top_start) }
{
    push_top_name(text)?;
    push_config_start(text)?;
    text.push_str("\n")
}

#[tactic(auto, unfolding(crate::specs::Design::TopText::top_name))]
fn push_top_name(text: &mut String) -> Result<(), AllocError>
    ensures { OnOk result (string_bytes text.new ≡ string_bytes text.old ++ top_name) }
{
    text.push_str("proc Main {\n")
}

/// Appends the lines of so many procs, each with the channel behind it.
fn push_links(text: &mut String, seed: u64, procs: u32) -> Result<(), AllocError>
    ensures { OnOk result (string_bytes text.new ≡ string_bytes text.old ++ links_text seed procs) }
{
    let mut number = seed;
    'links: for index in 0..procs {
        number = next_drawn(number);
        push_link(text, u64::from(index), out_depth(number))?;
    }
    Ok(())
}

/// Appends the line of a proc and of the channel behind it, which holds so many words.
fn push_link(text: &mut String, index: u64, depth: u64) -> Result<(), AllocError>
    requires { index < 2 ^ 32 }
    ensures { OnOk result (string_bytes text.new ≡ string_bytes text.old ++ link_text index depth) }
{
    let channel = index + 1;
    push_channel_ends(text, channel)?;
    push_channel_made(text, channel, depth)?;
    push_spawn_start(text, index)?;
    push_output_end(text, channel)
}

#[tactic(auto, unfolding(crate::specs::Design::TopText::channel_ends))]
fn push_channel_ends(text: &mut String, channel: u64) -> Result<(), AllocError>
    ensures { OnOk result (string_bytes text.new ≡ string_bytes text.old ++ channel_ends channel) }
{
    text.push_str("    let (p")?;
    push_decimal(text, channel)?;
    text.push_str(", c")?;
    push_decimal(text, channel)?;
    text.push_str(") = ")
}

#[tactic(auto, unfolding(crate::specs::Design::TopText::channel_made))]
fn push_channel_made(text: &mut String, channel: u64, depth: u64) -> Result<(), AllocError>
    ensures { OnOk result (string_bytes text.new ≡ string_bytes text.old ++ channel_made channel depth) }
{
    text.push_str("chan<u32, u32:")?;
    push_decimal(text, depth)?;
    text.push_str(">(\"c")?;
    push_decimal(text, channel)?;
    text.push_str("\"); ")
}

/// Appends the `spawn` of a proc, up to its output.
#[tactic(auto, unfolding(crate::specs::Design::TopText::spawn_start))]
fn push_spawn_start(text: &mut String, index: u64) -> Result<(), AllocError>
    ensures { OnOk result (string_bytes text.new ≡ string_bytes text.old ++ spawn_start index) }
{
    text.push_str("spawn P")?;
    push_decimal(text, index)?;
    text.push_str("(")?;
    push_input_end(text, index)?;
    text.push_str(", ")
}

/// Appends the end from which a proc receives.
fn push_input_end(text: &mut String, index: u64) -> Result<(), AllocError>
    ensures { OnOk result (string_bytes text.new ≡ string_bytes text.old ++ input_end index) }
{
    if index == 0 {
        return text.push_str("a");
    }
    text.push_str("c")?;
    push_decimal(text, index)
}

#[tactic(auto, unfolding(crate::specs::Design::TopText::output_end))]
fn push_output_end(text: &mut String, channel: u64) -> Result<(), AllocError>
    ensures { OnOk result (string_bytes text.new ≡ string_bytes text.old ++ output_end channel) }
{
    text.push_str("p")?;
    push_decimal(text, channel)?;
    text.push_str(");\n")
}

/// Appends the line of the last proc, which sends to the outside.
#[tactic(auto, unfolding(crate::specs::Design::TopText::last_spawn))]
fn push_last_spawn(text: &mut String, index: u64) -> Result<(), AllocError>
    ensures { OnOk result (string_bytes text.new ≡ string_bytes text.old ++ last_spawn index) }
{
    text.push_str("    ")?;
    push_spawn_start(text, index)?;
    text.push_str("b); }\n")
}

#[tactic(auto, unfolding(crate::specs::Design::TopText::top_end))]
fn push_top_end(text: &mut String) -> Result<(), AllocError>
    ensures { OnOk result (string_bytes text.new ≡ string_bytes text.old ++ top_end) }
{
    text.push_str("  init { () }\n  next(s: ()) { s } }\n")
}
