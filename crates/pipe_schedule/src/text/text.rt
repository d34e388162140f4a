//! The text of schedules.

ghost use Rattle.std.specs.Prelude.{◌≡◌, ◌++◌, IfOk, OnOk, string_bytes};
ghost use Rattle.pipe_schedule.specs.Text.Text.{node_line, node_lines, proc_line, proc_lines, schedule_text};

use crate::Schedule;
use crate::text::part::{push_count, push_name};
use ir_tree::{Node, Package, Proc};
use std::alloc::{AllocError, Global};

/// The text of the schedules of a package, one for each of its procs: for each a line of its number of stages and its
/// interval, and a line for each node with its stage.
///
/// It takes time and memory as the text is long.
pub fn schedule_text(
    alloc: Global,
    ir: &Package,
    schedules: &[Schedule],
) -> Result<String, AllocError>
    ensures { IfOk result (λ text. string_bytes text ≡ schedule_text ir.now schedules.now) }
{
    let mut text = String::new(alloc);
    push_procs(&mut text, ir.procs.as_slice(), schedules)?;
    Ok(text)
}

fn push_procs(text: &mut String, procs: &[Proc], schedules: &[Schedule]) -> Result<(), AllocError>
    ensures { OnOk result (string_bytes text.new ≡ string_bytes text.old ++ proc_lines procs.now schedules.now) }
{
    let count = procs.len().min(schedules.len());
    'procs: for i in 0..count {
        push_proc_lines(text, &procs[i], &schedules[i])?;
    }
    Ok(())
}

/// Appends the lines of a proc.
fn push_proc_lines(text: &mut String, proc: &Proc, schedule: &Schedule) -> Result<(), AllocError>
    ensures { OnOk result (string_bytes text.new ≡ string_bytes text.old ++ (proc_line proc.now schedule.now ++ node_lines proc.now.nodes schedule.now.stage)) }
{
    push_proc(text, proc, schedule)?;
    push_nodes(text, proc.nodes.as_slice(), schedule.stage.as_slice())
}

/// Appends `proc PATH stages D interval I`.
#[tactic(auto, unfolding(crate::specs::Text::Text::proc_line))]
fn push_proc(text: &mut String, proc: &Proc, schedule: &Schedule) -> Result<(), AllocError>
    ensures { OnOk result (string_bytes text.new ≡ string_bytes text.old ++ proc_line proc.now schedule.now) }
{
    text.push_str("proc ")?;
    text.push_str(proc.name.as_str())?;
    push_count(text, " stages ", u64::from(schedule.stages))?;
    push_count(text, " interval ", u64::from(schedule.interval))?;
    text.push_str("\n")
}

fn push_nodes(text: &mut String, nodes: &[Node], stages: &[u32]) -> Result<(), AllocError>
    ensures { OnOk result (string_bytes text.new ≡ string_bytes text.old ++ node_lines nodes.now stages.now) }
{
    let count = nodes.len().min(stages.len());
    'nodes: for i in 0..count {
        push_node(text, &nodes[i], stages[i])?;
    }
    Ok(())
}

/// Appends two spaces, the node, a space and its stage.
#[tactic(auto, unfolding(crate::specs::Text::Text::node_line))]
fn push_node(text: &mut String, node: &Node, stage: u32) -> Result<(), AllocError>
    ensures { OnOk result (string_bytes text.new ≡ string_bytes text.old ++ node_line node.now stage) }
{
    text.push_str("  ")?;
    push_name(text, node)?;
    push_count(text, " ", u64::from(stage))?;
    text.push_str("\n")
}
