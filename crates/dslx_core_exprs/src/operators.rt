//! The core expressions that operators, casts and parts of bits are lowered to, made of those of their operands.
//!
//! Each call is its definition in `dslx_core::lowering`; `None` where types don't fit.
mod operators;

pub use operators::{
    lower_binary, lower_cast, lower_counted, lower_part, lower_prefix, lower_reduced, lower_slice,
};
