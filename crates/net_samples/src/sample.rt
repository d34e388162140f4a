ghost use Rattle.std.specs.Prelude.{◌<◌, ◌^◌, length};

use net_core::Site;
use xb_value::Seq;

/// When a site is on, by the state's number.
#[derive(Clone, Copy, PartialEq, Eq, Hash)]
pub enum When {
    Always,
    Even,
    Odd,
}

/// Where a number comes from: from the state, or from the last word received in the activation, 0 if there is none.
#[derive(Clone, Copy, PartialEq, Eq, Hash)]
pub enum Source {
    State,
    Last,
}

/// A site of a sample. A send carries 8 bits.
#[derive(Clone, Copy, PartialEq, Eq, Hash)]
pub struct Port {
    pub site: Site,
    pub when: When,
    pub source: Source,
}

/// The next state: the same in 1 bit, the other one in 1 bit, or one more than a number in 8 bits.
#[derive(Clone, Copy, PartialEq, Eq, Hash)]
pub enum Step {
    Stay,
    Count(Source),
    Flip,
}

/// A proc whose channels carry 8 bits. The number of a state that isn't bits is 0.
#[derive(Drop)]
pub struct Sample {
    pub ports: Seq<Port>,
    pub step: Step,
    ghost few: { length ports < 2 ^ 30 },
}
