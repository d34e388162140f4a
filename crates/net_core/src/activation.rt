ghost use Rattle.net_core.specs.Keeps.{IsNothing};

use std::alloc::Global;
use xb_bits::Bits;
use xb_value::Value;

/// What a body has worked out in an activation that is open, so that it isn't worked out again for its next event.
///
/// It holds the values so far, how many of its steps and sites are past, how many words they took, and the word of the
/// send at which it stands once that is known. What that means, the body says.
#[derive(Drop)]
pub struct Activation {
    pub values: Vec<Value>,
    pub steps: usize,
    pub sites: u32,
    pub words: usize,
    pub sent: Option<Bits>,
}

impl Activation {
    /// Nothing is worked out.
    pub fn new(alloc: Global) -> Activation
        ensures { IsNothing result }
    {
        Activation {
            values: Vec::new(alloc),
            steps: 0,
            sites: 0,
            words: 0,
            sent: None,
        }
    }

    /// Nothing is worked out any more. It keeps its memory.
    pub fn clear(&mut self)
        ensures { IsNothing self.new }
    {
        self.values.clear();
        self.steps = 0;
        self.sites = 0;
        self.words = 0;
        self.sent = None;
    }
}
