//! When the nodes of an IR proc do what a checked proc does.
//!
//! Both are activities: what is done at the sites, by the words that are received. Where they are alike site by site, an activation
//! of the one does what an activation of the other does.
mod laws;

pub use laws::{activities_go_on, alike_activities_are_same_activations};
