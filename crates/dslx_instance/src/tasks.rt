//! What is to be done where instances of functions are lowered, and the state of the machine that does it.
mod body;
mod machine;
mod maker;
mod task;
mod work;

pub use body::OpenBody;
pub use machine::{InstanceMachine, OpenInstance};
pub use maker::{LastMaker, PartsMaker};
pub use task::{
    ArmsTask, BlockTask, CallTask, LoopTask, LowerTask, MatchWork, OtherFields, PartsTask,
    StructWork,
};
pub use work::BodyWork;
