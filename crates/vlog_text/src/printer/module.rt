//! Modules.

ghost use Rattle.std.specs.Prelude.{◌≡◌, ◌≤◌, ◌++◌, [], map, flat_map, IfOk, OnOk, string_bytes};
ghost use Rattle.xb_value.specs.Text.{listed};
ghost use Rattle.vlog_text.specs.Printer.ModuleText.{range_text, direction_text, port_text, storage_text, declaration_text, assignment_start, assignment_text, set_text, clocked_start, clocked_middle, clocked_text, module_start, module_text};

use crate::printer::atom::{push_atom, push_number, push_signal};
use crate::printer::expression::push_expr;
use std::alloc::{AllocError, Global};
use vlog_tree::{Assignment, Declaration, Direction, Port, Set, Signal, Storage, VModule};

/// The text of a module.
pub fn print_v(alloc: Global, design: &VModule) -> Result<String, AllocError>
    ensures { IfOk result (λ text. string_bytes text ≡ module_text design.now) }
{
    let mut text = String::new(alloc);
    push_module_start(&mut text, design)?;
    push_declarations(&mut text, design.declarations.as_slice())?;
    push_assignments(&mut text, design, design.assignments.as_slice())?;
    push_clocked(&mut text, design)?;
    text.push_str("endmodule\n")?;
    Ok(text)
}

/// Appends `module NAME(PORTS);`.
#[tactic(auto, unfolding(crate::specs::Printer::ModuleText::module_start))]
fn push_module_start(text: &mut String, design: &VModule) -> Result<(), AllocError>
    ensures { OnOk result (string_bytes text.new ≡ string_bytes text.old ++ module_start design.now) }
{
    text.push_str("module ")?;
    text.push_str(design.name.as_str())?;
    text.push_str("(")?;
    push_ports(text, design.ports.as_slice())?;
    text.push_str(");\n")
}

/// Appends the range of a width, if it is more than 1.
#[tactic(auto, unfolding(crate::specs::Printer::ModuleText::range_text))]
fn push_range(text: &mut String, width: u64) -> Result<(), AllocError>
    requires { 1 ≤ width }
    ensures { OnOk result (string_bytes text.new ≡ string_bytes text.old ++ range_text width) }
{
    if width == 1 {
        return Ok(());
    }
    text.push_str("[")?;
    push_number(text, u128::from(width - 1))?;
    text.push_str(":0] ")
}

fn direction_text(direction: Direction) -> &'static str
    ensures { result.now ≡ direction_text direction }
{
    match direction {
        Direction::Input => "input wire ",
        Direction::Output => "output wire ",
    }
}

fn push_port(text: &mut String, port: &Port) -> Result<(), AllocError>
    ensures { OnOk result (string_bytes text.new ≡ string_bytes text.old ++ port_text port.now) }
{
    text.push_str(direction_text(port.direction))?;
    push_range(text, port.width)?;
    text.push_str(port.name.as_str())
}

/// Appends ports, with `, ` between them.
fn push_ports(text: &mut String, ports: &[Port]) -> Result<(), AllocError>
    ensures { OnOk result (string_bytes text.new ≡ string_bytes text.old ++ listed [] (map port_text ports.now)) }
{
    let mut separator = "";
    'ports: for port in ports {
        text.push_str(separator)?;
        push_port(text, port)?;
        separator = ", ";
    }
    Ok(())
}

fn storage_text(storage: Storage) -> &'static str
    ensures { result.now ≡ storage_text storage }
{
    match storage {
        Storage::Wire => "wire ",
        Storage::Register => "reg ",
    }
}

fn push_declaration(text: &mut String, own: &Declaration) -> Result<(), AllocError>
    ensures { OnOk result (string_bytes text.new ≡ string_bytes text.old ++ declaration_text own.now) }
{
    text.push_str(storage_text(own.storage))?;
    push_range(text, own.width)?;
    text.push_str(own.name.as_str())?;
    text.push_str(";\n")
}

fn push_declarations(text: &mut String, own_names: &[Declaration]) -> Result<(), AllocError>
    ensures { OnOk result (string_bytes text.new ≡ string_bytes text.old ++ flat_map declaration_text own_names.now) }
{
    'declarations: for own in own_names {
        push_declaration(text, own)?;
    }
    Ok(())
}

/// Appends `assign NAME = `.
#[tactic(auto, unfolding(crate::specs::Printer::ModuleText::assignment_start))]
fn push_assignment_start(
    text: &mut String,
    design: &VModule,
    target: Signal,
) -> Result<(), AllocError>
    ensures { OnOk result (string_bytes text.new ≡ string_bytes text.old ++ assignment_start design.now target.0) }
{
    text.push_str("assign ")?;
    push_signal(text, design, target)?;
    text.push_str(" = ")
}

fn push_assignment(
    text: &mut String,
    design: &VModule,
    assignment: &Assignment,
) -> Result<(), AllocError>
    ensures { OnOk result (string_bytes text.new ≡ string_bytes text.old ++ assignment_text design.now assignment.now) }
{
    push_assignment_start(text, design, assignment.target)?;
    push_expr(text, design, &assignment.value)?;
    text.push_str(";\n")
}

fn push_assignments(
    text: &mut String,
    design: &VModule,
    assignments: &[Assignment],
) -> Result<(), AllocError>
    ensures { OnOk result (string_bytes text.new ≡ string_bytes text.old ++ flat_map (assignment_text design.now) assignments.now) }
{
    'assignments: for assignment in assignments {
        push_assignment(text, design, assignment)?;
    }
    Ok(())
}

fn push_set(text: &mut String, design: &VModule, set: &Set) -> Result<(), AllocError>
    ensures { OnOk result (string_bytes text.new ≡ string_bytes text.old ++ set_text design.now set.now) }
{
    push_signal(text, design, set.target)?;
    text.push_str(" <= ")?;
    push_atom(text, design, set.value)?;
    text.push_str(";\n")
}

fn push_sets(text: &mut String, design: &VModule, sets: &[Set]) -> Result<(), AllocError>
    ensures { OnOk result (string_bytes text.new ≡ string_bytes text.old ++ flat_map (set_text design.now) sets.now) }
{
    'sets: for set in sets {
        push_set(text, design, set)?;
    }
    Ok(())
}

#[tactic(auto, unfolding(crate::specs::Printer::ModuleText::clocked_start))]
fn push_clocked_start(text: &mut String) -> Result<(), AllocError>
    ensures { OnOk result (string_bytes text.new ≡ string_bytes text.old ++ clocked_start) }
{
    text.push_str("always @(posedge clk) begin if (rst) begin\n")
}

#[tactic(auto, unfolding(crate::specs::Printer::ModuleText::clocked_middle))]
fn push_clocked_middle(text: &mut String) -> Result<(), AllocError>
    ensures { OnOk result (string_bytes text.new ≡ string_bytes text.old ++ clocked_middle) }
{
    text.push_str("end else begin\n")
}

/// Appends what registers take, if there are any.
fn push_clocked(text: &mut String, design: &VModule) -> Result<(), AllocError>
    ensures { OnOk result (string_bytes text.new ≡ string_bytes text.old ++ clocked_text design.now) }
{
    let resets = design.at_reset.as_slice();
    let clocks = design.at_clock.as_slice();
    if resets.len() == 0 && clocks.len() == 0 {
        return Ok(());
    }
    push_clocked_start(text)?;
    push_sets(text, design, resets)?;
    push_clocked_middle(text)?;
    push_sets(text, design, clocks)?;
    text.push_str("end end\n")
}
