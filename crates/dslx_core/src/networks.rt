//! Which instances of a checked text the instances of a text's procs are lowered to, and that the two have one network.
mod config;
mod instance;
mod network;

pub use config::LoweredConfig;
pub use instance::ProcInstance;
pub use network::lower_preserves_networks;
