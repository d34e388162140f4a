//! Names, literals and operators.

ghost use Rattle.std.specs.Prelude.{◌≡◌, ◌++◌, [], map, decimal, OnOk, string_bytes};
ghost use Rattle.xb_value.specs.Text.{listed};
ghost use Rattle.vlog_text.specs.Printer.Parts.{signal_text, literal_text, atom_text, order_text, binary_text, unary_text};

use itoa::Buffer;
use std::alloc::AllocError;
use vlog_tree::{Atom, Binary, Literal, Order, Signal, Unary, VModule};

/// Appends a number in decimal.
pub fn push_number(text: &mut String, number: u128) -> Result<(), AllocError>
    ensures { OnOk result (string_bytes text.new ≡ string_bytes text.old ++ decimal number) }
{
    let mut buffer = Buffer::new();
    text.push_str(buffer.format(number))
}

/// Appends the name of a signal.
#[tactic(auto, unfolding(crate::specs::Printer::Parts::signal_text))]
pub fn push_signal(text: &mut String, design: &VModule, signal: Signal) -> Result<(), AllocError>
    ensures { OnOk result (string_bytes text.new ≡ string_bytes text.old ++ signal_text design.now signal.0) }
{
    let place = signal.0 as usize;
    if place < design.signal_count() {
        text.push_str(design.name_of(place))
    } else {
        Ok(())
    }
}

#[tactic(auto, unfolding(crate::specs::Printer::Parts::literal_text))]
fn push_literal(text: &mut String, literal: Literal) -> Result<(), AllocError>
    ensures { OnOk result (string_bytes text.new ≡ string_bytes text.old ++ literal_text literal) }
{
    push_number(text, u128::from(literal.width))?;
    text.push_str("'d")?;
    push_number(text, literal.value)
}

/// Appends a name or a literal.
pub fn push_atom(text: &mut String, design: &VModule, atom: Atom) -> Result<(), AllocError>
    ensures { OnOk result (string_bytes text.new ≡ string_bytes text.old ++ atom_text design.now atom) }
{
    match atom {
        Atom::Signal(signal) => push_signal(text, design, signal),
        Atom::Literal(literal) => push_literal(text, literal),
    }
}

/// Appends names and literals, with `, ` between them.
pub fn push_atoms(text: &mut String, design: &VModule, atoms: &[Atom]) -> Result<(), AllocError>
    ensures { OnOk result (string_bytes text.new ≡ string_bytes text.old ++ listed [] (map (atom_text design.now) atoms.now)) }
{
    let mut separator = "";
    'atoms: for atom in atoms {
        text.push_str(separator)?;
        push_atom(text, design, *atom)?;
        separator = ", ";
    }
    Ok(())
}

/// The spelling of an order, with spaces.
pub fn order_text(order: Order) -> &'static str
    ensures { result.now ≡ order_text order }
{
    match order {
        Order::Less => " < ",
        Order::LessOrEqual => " <= ",
        Order::Greater => " > ",
        Order::GreaterOrEqual => " >= ",
    }
}

/// The spelling of an operator between two, with spaces.
pub fn binary_text(operator: Binary) -> &'static str
    ensures { result.now ≡ binary_text operator }
{
    match operator {
        Binary::Add => " + ",
        Binary::Subtract => " - ",
        Binary::Multiply => " * ",
        Binary::Divide => " / ",
        Binary::Remainder => " % ",
        Binary::And => " & ",
        Binary::Or => " | ",
        Binary::Xor => " ^ ",
        Binary::Equal => " == ",
        Binary::NotEqual => " != ",
        Binary::Ordered(order) => order_text(order),
        Binary::ShiftLeft => " << ",
        Binary::ShiftRight => " >> ",
    }
}

/// The spelling of an operator before one.
pub fn unary_text(operator: Unary) -> &'static str
    ensures { result.now ≡ unary_text operator }
{
    match operator {
        Unary::Negate => "-",
        Unary::Complement => "~",
        Unary::AllOnes => "&",
        Unary::SomeOne => "|",
        Unary::Parity => "^",
    }
}
