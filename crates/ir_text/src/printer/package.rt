ghost use Rattle.std.specs.Prelude.{◌≡◌, ◌++◌, map, IfOk, OnOk, string_bytes};
ghost use Rattle.ir_text.specs.Printer.Lines.{channel_text, node_text, proc_start, proc_init, proc_end, proc_text, lines_text, package_text};

use crate::printer::line::{push_channel, push_node};
use crate::printer::part::{push_constant, push_operand, push_type};
use ir_tree::{Channel, Node, Package, Proc};
use std::alloc::{AllocError, Global};

/// The text of a package.
pub fn print_ir(alloc: Global, ir: &Package) -> Result<String, AllocError>
    ensures { IfOk result (λ text. string_bytes text ≡ package_text ir.now) }
{
    let mut text = String::new(alloc);
    text.push_str("package ")?;
    text.push_str(ir.name.as_str())?;
    text.push_str("\n")?;
    push_channels(&mut text, ir.channels.as_slice())?;
    push_procs(&mut text, ir.channels.as_slice(), ir.procs.as_slice())?;
    Ok(text)
}

fn push_channels(text: &mut String, channels: &[Channel]) -> Result<(), AllocError>
    ensures { OnOk result (string_bytes text.new ≡ string_bytes text.old ++ lines_text (map channel_text channels.now)) }
{
    'channels: for channel in channels {
        push_channel(text, channel)?;
    }
    Ok(())
}

fn push_nodes(text: &mut String, channels: &[Channel], nodes: &[Node]) -> Result<(), AllocError>
    ensures { OnOk result (string_bytes text.new ≡ string_bytes text.old ++ lines_text (map (node_text channels.now nodes.now) nodes.now)) }
{
    'nodes: for node in nodes {
        push_node(text, channels, nodes, node)?;
    }
    Ok(())
}

/// Appends `proc NAME(st: TYPE`.
#[tactic(auto, unfolding(crate::specs::Printer::Lines::proc_start))]
fn push_proc_start(text: &mut String, proc: &Proc) -> Result<(), AllocError>
    ensures { OnOk result (string_bytes text.new ≡ string_bytes text.old ++ proc_start proc.now) }
{
    text.push_str("proc ")?;
    text.push_str(proc.name.as_str())?;
    text.push_str("(st: ")?;
    push_type(text, &proc.state)
}

/// Appends `, init=VALUE) {`.
#[tactic(auto, unfolding(crate::specs::Printer::Lines::proc_init))]
fn push_proc_init(text: &mut String, proc: &Proc) -> Result<(), AllocError>
    ensures { OnOk result (string_bytes text.new ≡ string_bytes text.old ++ proc_init proc.now) }
{
    text.push_str(", init=")?;
    push_constant(text, &proc.init)?;
    text.push_str(") {\n")
}

/// Appends `next(OPERAND)` and the closing brace.
#[tactic(auto, unfolding(crate::specs::Printer::Lines::proc_end))]
fn push_proc_end(text: &mut String, proc: &Proc) -> Result<(), AllocError>
    ensures { OnOk result (string_bytes text.new ≡ string_bytes text.old ++ proc_end proc.now) }
{
    text.push_str("  next(")?;
    push_operand(text, proc.nodes.as_slice(), proc.next)?;
    text.push_str(")\n}\n")
}

fn push_proc(text: &mut String, channels: &[Channel], proc: &Proc) -> Result<(), AllocError>
    ensures { OnOk result (string_bytes text.new ≡ string_bytes text.old ++ proc_text channels.now proc.now) }
{
    push_proc_start(text, proc)?;
    push_proc_init(text, proc)?;
    push_nodes(text, channels, proc.nodes.as_slice())?;
    push_proc_end(text, proc)
}

fn push_procs(text: &mut String, channels: &[Channel], procs: &[Proc]) -> Result<(), AllocError>
    ensures { OnOk result (string_bytes text.new ≡ string_bytes text.old ++ lines_text (map (proc_text channels.now) procs.now)) }
{
    'procs: for proc in procs {
        push_proc(text, channels, proc)?;
    }
    Ok(())
}
