//! The widths that an expression's parts need for a target of some width.

ghost use Rattle.std.specs.Prelude.{◌≡◌, ◌==◌, ◌+◌, ◌-◌, ◌&&◌, nat_lt, nat_le};
ghost use Rattle.vlog_tree.specs.Signals.{declared_widths};
ghost use Rattle.vlog_tree.specs.Forms.{atom_width, joined_width, binary_fits, unary_fits, simple_fits, fits};

use crate::{Atom, Binary, Expr, Signal, Simple, Unary, VModule};

fn signal_width(design: &VModule, signal: Signal) -> u64
    ensures { result ≡ declared_widths design.now signal.0 }
{
    design.width_of(signal.0 as usize)
}

/// The width of a signal or a literal.
pub fn atom_width(design: &VModule, atom: Atom) -> u64
    ensures { result ≡ atom_width (declared_widths design.now) atom }
{
    match atom {
        Atom::Signal(signal) => signal_width(design, signal),
        Atom::Literal(literal) => literal.width,
    }
}

/// Whether numbers side by side have this width.
fn joined_fits(design: &VModule, width: u64, atoms: &[Atom]) -> bool
    ensures { result ≡ (joined_width (declared_widths design.now) atoms.now == width) }
{
    let mut left = width;
    for atom in atoms {
        let part = atom_width(design, *atom);
        if left < part {
            return false;
        }
        left -= part;
    }
    left == 0
}

fn binary_fits(width: u64, operator: Binary, a: u64, b: u64) -> bool
    ensures { result ≡ binary_fits width operator a b }
{
    match operator {
        Binary::Equal => a == b && width == 1,
        Binary::NotEqual => a == b && width == 1,
        Binary::Ordered(_) => a == b && width == 1,
        Binary::ShiftLeft => a == width,
        Binary::ShiftRight => a == width,
        _ => a == width && b == width,
    }
}

fn unary_fits(width: u64, operator: Unary, a: u64) -> bool
    ensures { result ≡ unary_fits width operator a }
{
    match operator {
        Unary::Negate => a == width,
        Unary::Complement => a == width,
        _ => width == 1,
    }
}

/// Whether bits `low` to `high` of a number of `of` bits are `width` bits.
fn slice_fits(width: u64, of: u64, high: u64, low: u64) -> bool
    ensures { result ≡ (nat_lt 1 of && (nat_le low high && (nat_lt high of && (width == high + 1 - low)))) }
{
    1 < of && low <= high && high < of && width == high - low + 1
}

fn simple_fits(design: &VModule, width: u64, x: &Simple) -> bool
    ensures { result ≡ simple_fits (declared_widths design.now) width x.now }
{
    match x {
        Simple::Atom(a) => atom_width(design, *a) == width,
        Simple::Binary(operator, a, b) => {
            binary_fits(
                width,
                *operator,
                atom_width(design, *a),
                atom_width(design, *b),
            )
        }
        Simple::Unary(operator, a) => unary_fits(width, *operator, atom_width(design, *a)),
        Simple::Slice { of, high, low } => {
            slice_fits(width, signal_width(design, *of), *high, *low)
        }
        Simple::Concat(atoms) => joined_fits(design, width, atoms.as_slice()),
    }
}

/// Whether a target of this width may be driven by an expression.
pub fn fits(design: &VModule, width: u64, x: &Expr) -> bool
    ensures { result ≡ fits (declared_widths design.now) width x.now }
{
    match x {
        Expr::Simple(x) => simple_fits(design, width, x),
        Expr::SignedOrder(_, a, b) => {
            signal_width(design, *a) == signal_width(design, *b) && width == 1
        }
        Expr::SignedShift(a, _) => signal_width(design, *a) == width,
        Expr::Choice(condition, a, b) => {
            atom_width(design, *condition) == 1
                && simple_fits(design, width, a)
                && simple_fits(design, width, b)
        }
    }
}
