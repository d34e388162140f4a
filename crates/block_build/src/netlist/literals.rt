//! Literals.

ghost use Rattle.std.specs.Prelude.{◌≡◌, ◌≤◌, ◌^◌, ◌-◌, max, min, nat_lt};
ghost use Rattle.block_build.specs.Netlist.Literals.{literal_atom, literal_of, number_in};

use vlog_tree::{Atom, Literal};

/// The literal of a number of 1 to 128 bits, as an atom.
pub fn literal(width: u64, value: u128) -> Atom
    ensures { result ≡ literal_atom width value }
{
    Atom::Literal(written(width, value))
}

/// The literal of a number.
fn written(width: u64, value: u128) -> Literal
    ensures { result ≡ literal_of width value }
{
    Literal {
        width: width.max(1),
        value: number(width, value),
    }
}

/// The number, or 0 where it doesn't fit so many bits, of which there is one at least.
fn number(width: u64, value: u128) -> u128
    ensures { result ≡ number_in (max 1 width) value }
{
    if fits(width.max(1), value) { value } else { 0 }
}

/// Whether a number fits so many bits.
fn fits(width: u64, value: u128) -> bool
    ensures { result ≡ nat_lt value (2 ^ min width 128) }
{
    128 <= width || value < 1 << width
}

/// So many zeros.
pub fn zeros(width: u64) -> Atom
    ensures { result ≡ literal_atom width 0 }
{
    literal(width, 0)
}

/// So many ones.
pub fn ones(width: u64) -> Atom
    ensures { width ≤ 128 → result ≡ literal_atom width (2 ^ width - 1) }
{
    if width < 128 {
        literal(width, (1 << width) - 1)
    } else {
        literal(width, u128::MAX)
    }
}
