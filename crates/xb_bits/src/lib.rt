//! Numbers of 1 to 128 bits.
//!
//! Each operation is a formula on widths and whole numbers, one definition each in `specs/Operations.antt`, which the
//! meanings of the source language, of the intermediate language and of the hardware text cite too.
//! No operation allocates, and none loops more than 128 turns.
#![tactic(auto)]

mod arithmetic;
mod bit_positions;
mod bits;
mod logic;
mod numbers;
mod order;
mod parts;
mod shifts;

pub use arithmetic::{add, mul, neg, sub, udiv, umod};
pub use bit_positions::{clz, ctz, rev};
pub use bits::Bits;
pub use logic::{and, and_reduce, not, or, or_reduce, xor, xor_reduce};
pub use order::{cmp_s, cmp_u};
pub use parts::{concat, dyn_slice, sext, slice, zext};
pub use shifts::{shll, shra, shrl};
