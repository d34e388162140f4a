//! Expressions.

ghost use Rattle.std.specs.Prelude.{◌≡◌, ◌++◌, OnOk, string_bytes};
ghost use Rattle.vlog_text.specs.Printer.Parts.{bounds_text, simple_text, signed_text, expr_text};

use crate::printer::atom::{
    binary_text, order_text, push_atom, push_atoms, push_number, push_signal, unary_text,
};
use std::alloc::AllocError;
use vlog_tree::{Expr, Signal, Simple, VModule};

/// Appends `[HIGH:LOW]`.
#[tactic(auto, unfolding(crate::specs::Printer::Parts::bounds_text))]
fn push_bounds(text: &mut String, high: u64, low: u64) -> Result<(), AllocError>
    ensures { OnOk result (string_bytes text.new ≡ string_bytes text.old ++ bounds_text high low) }
{
    text.push_str("[")?;
    push_number(text, u128::from(high))?;
    text.push_str(":")?;
    push_number(text, u128::from(low))?;
    text.push_str("]")
}

fn push_simple(text: &mut String, design: &VModule, x: &Simple) -> Result<(), AllocError>
    ensures { OnOk result (string_bytes text.new ≡ string_bytes text.old ++ simple_text design.now x.now) }
{
    match x {
        Simple::Atom(a) => push_atom(text, design, *a),
        Simple::Binary(operator, a, b) => {
            push_atom(text, design, *a)?;
            text.push_str(binary_text(*operator))?;
            push_atom(text, design, *b)
        }
        Simple::Unary(operator, a) => {
            text.push_str(unary_text(*operator))?;
            push_atom(text, design, *a)
        }
        Simple::Slice { of, high, low } => {
            push_signal(text, design, *of)?;
            push_bounds(text, *high, *low)
        }
        Simple::Concat(atoms) => {
            text.push_str("{")?;
            push_atoms(text, design, atoms.as_slice())?;
            text.push_str("}")
        }
    }
}

/// Appends `$signed(NAME)`.
#[tactic(auto, unfolding(crate::specs::Printer::Parts::signed_text))]
fn push_signed(text: &mut String, design: &VModule, signal: Signal) -> Result<(), AllocError>
    ensures { OnOk result (string_bytes text.new ≡ string_bytes text.old ++ signed_text design.now signal.0) }
{
    text.push_str("$signed(")?;
    push_signal(text, design, signal)?;
    text.push_str(")")
}

/// Appends an expression.
pub fn push_expr(text: &mut String, design: &VModule, x: &Expr) -> Result<(), AllocError>
    ensures { OnOk result (string_bytes text.new ≡ string_bytes text.old ++ expr_text design.now x.now) }
{
    match x {
        Expr::Simple(x) => push_simple(text, design, x),
        Expr::SignedOrder(order, a, b) => {
            push_signed(text, design, *a)?;
            text.push_str(order_text(*order))?;
            push_signed(text, design, *b)
        }
        Expr::SignedShift(a, amount) => {
            push_signed(text, design, *a)?;
            text.push_str(" >>> ")?;
            push_atom(text, design, *amount)
        }
        Expr::Choice(condition, a, b) => {
            push_atom(text, design, *condition)?;
            text.push_str(" ? ")?;
            push_simple(text, design, a)?;
            text.push_str(" : ")?;
            push_simple(text, design, b)
        }
    }
}
