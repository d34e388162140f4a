//! Steps where instances of functions are lowered, which need nothing but what was made: blocks, operations, and expressions one
//! after another.
mod block;
mod operation;
mod several;

pub use block::{begin_statements, make_bind};
pub use operation::{
    make_binary, make_cast, make_choice, make_element, make_indexed, make_part, make_prefix,
    make_slice,
};
pub use several::{begin_choice, begin_loop, begin_match, begin_next, bind_unnamed, fits_part};
