//! What patterns are lowered to in a scope, and which names they bind.
mod bind;
mod fresh;
mod names;
mod several;
mod shape;
mod there;
mod value;

pub use bind::{BodyScope, BoundShape, BoundTurn, bind_there, turn_there};
pub use names::binds_nothing_new;
pub use several::alternatives_there;
pub use there::{Shaped, shape_there};
