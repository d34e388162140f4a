//! What is to be done for the value of a constant expression, and where the machine that does it stands.
#![tactic(auto)]

mod count;
pub mod items;
mod kept;
mod machine;
mod order;
mod task;

pub use count::{one_left, one_less};
pub use kept::{Kept, copy_if};
pub use machine::Machine;
pub use order::in_order;
pub use task::{
    Call, CallTask, ChoiceTask, Fields, Fitting, Found, ListMaker, ListTask, OneMaker, PairMaker,
    Sequel, Task, TypeTask, ValueTask, Waiting,
};
