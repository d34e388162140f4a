//! Tests of values that no text has.

mod shared;
mod values;
