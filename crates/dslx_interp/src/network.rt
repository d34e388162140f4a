//! Elaboration: from a checked text to its network of procs and channels; and what its procs do, as bodies that runs take.
//!
//! The procs and channels of each instance's family are counted first, once an instance, so a network past its limits is refused and not
//! made. Then the procs are elaborated, each before those that it starts.
//!
//! Cost: linear in the checked text, and in the network that is made. A body goes through the steps of the activation from its start to
//! each event, and copies the state that it starts from.
mod bodies;
mod body;
mod channels;
mod count;
mod family;
mod heads;
pub mod linked;
mod network;
mod walk;
mod word;

pub use bodies::bodies_of;
pub use body::DslxBody;
pub use network::{Elaborated, elaborate};
