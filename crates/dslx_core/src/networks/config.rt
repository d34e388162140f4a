use crate::{Child, MadeChannel};
use xb_value::Seq;

/// What a `config` is lowered to: the channels that it makes, the procs that it starts, and the number of each member's end.
#[derive(Drop)]
pub struct LoweredConfig {
    pub made: Seq<MadeChannel>,
    pub children: Seq<Child>,
    pub members: Seq<u64>,
}
