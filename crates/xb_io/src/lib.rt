//! The outside as the compiler sees it: named files to load, sinks to put bytes into, and the gate of
//! the workers.
//!
//! Each is a trait whose contract says what a caller may rely on, and which faults it has to expect.
//! There are two kinds of implementation: in memory, where the contract tells the content, and over the
//! real file system and streams, where it tells what was asked for and when a call fails.
//!
//! Cost: a load and a put are linear in the bytes that they move.
#![tactic(auto)]

mod asked;
mod failing;
mod files;
mod gate;
mod host_files;
mod memory_files;
mod memory_sink;
mod sink;
mod stream_sink;

pub use asked::Asked;
pub use files::{FILE_LIMIT, Files, LoadError};
pub use gate::{Gate, OpenGate};
pub use host_files::HostFiles;
pub use memory_files::{FaultFreeFiles, MemFile, MemFiles};
pub use memory_sink::MemSink;
pub use sink::{Failed, Sink};
pub use stream_sink::StreamSink;
