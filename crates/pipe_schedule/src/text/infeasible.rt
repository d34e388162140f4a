//! The line that says why there is no schedule.

ghost use Rattle.std.specs.Prelude.{◌≡◌, ◌++◌, IfOk, OnOk, Some, string_bytes, slice_get};
ghost use Rattle.ir_text.specs.Printer.Parts.{name_there};
ghost use Rattle.pipe_schedule.specs.Text.Infeasible.{cause_text, head_text, infeasible_text, proc_text, slow_text, few_text, rare_text};

use crate::text::part::{push_count, push_name, push_word};
use crate::{Demands, Infeasible, NoSchedule};
use ir_tree::{Node, Package, Proc};
use std::alloc::{AllocError, Global};

/// The line that names the first proc of a package that has no schedule, and the cause.
pub fn infeasible_text(
    alloc: Global,
    ir: &Package,
    demands: Demands,
    found: Infeasible,
) -> Result<String, AllocError>
    ensures { IfOk result (λ text. string_bytes text ≡ infeasible_text ir.now demands found) }
{
    let mut text = String::new(alloc);
    push_infeasible(&mut text, ir.procs.as_slice(), demands, found)?;
    Ok(text)
}

fn push_infeasible(
    text: &mut String,
    procs: &[Proc],
    demands: Demands,
    found: Infeasible,
) -> Result<(), AllocError>
    ensures { OnOk result (string_bytes text.new ≡ string_bytes text.old ++ proc_text (slice_get procs.now found.proc) demands found.cause) }
{
    match procs.get(found.proc) {
        None => Ok(()),
        Some(proc) => push_line(text, proc, demands, found.cause),
    }
}

/// Appends the line of a proc.
fn push_line(
    text: &mut String,
    proc: &Proc,
    demands: Demands,
    cause: NoSchedule,
) -> Result<(), AllocError>
    ensures { OnOk result (string_bytes text.new ≡ string_bytes text.old ++ proc_text (Some proc.now) demands cause) }
{
    push_head(text, proc)?;
    push_cause(text, proc, demands, cause)?;
    text.push_str("\n")
}

/// Appends `infeasible: PROC: `.
fn push_head(text: &mut String, proc: &Proc) -> Result<(), AllocError>
    ensures { OnOk result (string_bytes text.new ≡ string_bytes text.old ++ head_text proc.now) }
{
    push_word(text, "infeasible: ")?;
    push_word(text, proc.name.as_str())?;
    push_word(text, ": ")
}

fn push_cause(
    text: &mut String,
    proc: &Proc,
    demands: Demands,
    cause: NoSchedule,
) -> Result<(), AllocError>
    ensures { OnOk result (string_bytes text.new ≡ string_bytes text.old ++ cause_text proc.now demands cause) }
{
    match cause {
        NoSchedule::TooSlow { node, delay } => push_slow(text, proc, node, delay, demands.clock),
        NoSchedule::Stages { node, need } => push_few(text, proc, node, need, demands.stages),
        NoSchedule::Interval { need } => push_rare(text, need, demands.interval),
        NoSchedule::OutOfMemory => Ok(()),
    }
}

fn push_slow(
    text: &mut String,
    proc: &Proc,
    node: usize,
    delay: u32,
    clock: u32,
) -> Result<(), AllocError>
    ensures { OnOk result (string_bytes text.new ≡ string_bytes text.old ++ slow_text (name_there (slice_get proc.now.nodes node)) delay clock) }
{
    push_node(text, proc.nodes.as_slice(), node)?;
    push_count(text, " takes ", u64::from(delay))?;
    push_count(text, " ps, clock ", u64::from(clock))
}

fn push_few(
    text: &mut String,
    proc: &Proc,
    node: usize,
    need: u64,
    stages: u32,
) -> Result<(), AllocError>
    ensures { OnOk result (string_bytes text.new ≡ string_bytes text.old ++ few_text (name_there (slice_get proc.now.nodes node)) need stages) }
{
    push_node(text, proc.nodes.as_slice(), node)?;
    push_count(text, " needs ", need)?;
    push_count(text, " stages, given ", u64::from(stages))
}

#[tactic(auto, unfolding(crate::specs::Text::Infeasible::rare_text))]
fn push_rare(text: &mut String, need: u64, interval: u32) -> Result<(), AllocError>
    ensures { OnOk result (string_bytes text.new ≡ string_bytes text.old ++ rare_text need interval) }
{
    push_count(text, "interval ", need)?;
    push_count(text, ", given ", u64::from(interval))
}

/// Appends the name of the node of an index, if there is one.
fn push_node(text: &mut String, nodes: &[Node], node: usize) -> Result<(), AllocError>
    ensures { OnOk result (string_bytes text.new ≡ string_bytes text.old ++ name_there (slice_get nodes.now node)) }
{
    match nodes.get(node) {
        None => Ok(()),
        Some(node) => push_name(text, node),
    }
}
