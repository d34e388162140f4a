//! The rules of DSLX that need no tree: what a part comes to, by what its own parts come to.
//!
//! Types are numbers of an interning table, so that a type which shares its parts costs what is written of it. Of faults the first one is
//! kept, and whether a rule is broken.
#![tactic(auto)]

mod binary;
pub mod control;
mod faults;
mod kinds;
pub mod laws;
mod limits;
pub mod nodes;
mod operands;
pub mod rule;
mod sizes;
mod table;
mod typing;

pub use binary::{
    Operand, binary_faults, binary_type, one_bit_type, same_ends, unless_one_bit_type,
};
pub use faults::Faults;
pub use kinds::{
    array_in, bits_in, bits_or_enum, element_type, holds_token, is_array, is_bits, is_bits_or_enum,
    is_bool, is_token, is_tuple, is_unit, is_unsigned, part_type, width_of_type,
};
pub use limits::{type_limits, word_limit};
pub use operands::{
    held_faults, token_faults, unit_faults, unless_array, unless_bits, unless_bits_or_enum,
    unless_bool, unless_unsigned, wanted_faults,
};
pub use sizes::{MOST_NODES, one_and, plus_size, times_size};
pub use table::{TypeId, TypeMeasures, TypeRow, TypeTable};
pub use typing::{Typing, limited, no_token, settled, unlimited};
