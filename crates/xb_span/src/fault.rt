ghost use Rattle.std.specs.Prelude.{◌≡◌};
ghost use Rattle.xb_span.specs.Fault.{key_of, precedes, first_of, error_of};

use crate::limit::Limit;
use crate::read_error::ReadError;
use crate::span::{Rule, Span};

/// What is wrong with a text that was read: a rule that a part breaks, or a quantity past its limit.
#[derive(Clone, Copy, PartialEq, Eq)]
pub enum Fault {
    /// A limit on the text as a whole. It is named before all faults that have a position.
    Whole(Limit),
    /// A rule that the part at a span breaks.
    Broken(Rule, Span),
    /// A limit that the part which ends at this byte passes.
    Passed(u32, Limit),
}

impl Fault {
    /// What decides its place in the order.
    fn key(&self) -> [u64; 6]
        ensures { result ≡ key_of self.now }
    {
        match self {
            Fault::Whole(limit) => [
                0,
                0,
                0,
                u64::from(limit.what.index()),
                limit.found,
                limit.most,
            ],
            Fault::Broken(rule, span) => [1, span.to as u64, 0, rule.0 as u64, span.from as u64, 0],
            Fault::Passed(end, limit) => [
                1,
                *end as u64,
                1,
                u64::from(limit.what.index()),
                limit.found,
                limit.most,
            ],
        }
    }

    /// Whether it is named before the other: the one whose part ends earlier is, at one end a rule before a limit, and
    /// the rule of the lower number, or the limit of the lower index.
    #[tactic(auto, unfolding(crate::specs::Fault::precedes))]
    pub fn precedes(&self, other: &Fault) -> bool
        ensures { result ≡ precedes self.now other.now }
    {
        let key = self.key();
        let others = other.key();
        key.as_slice() < others.as_slice()
    }

    /// The refusal that names it.
    pub fn error(self) -> ReadError
        ensures { result ≡ error_of self }
    {
        match self {
            Fault::Whole(limit) => ReadError::Over(limit),
            Fault::Broken(rule, span) => ReadError::Broken(rule, span),
            Fault::Passed(_, limit) => ReadError::Over(limit),
        }
    }
}

/// The fault that is named of all these: none precedes it.
pub fn first_of(faults: &[Fault]) -> Option<Fault>
    ensures { result ≡ first_of faults.now }
{
    let mut first = None;
    for fault in faults {
        first = match first {
            None => Some(*fault),
            Some(held) => if fault.precedes(&held) {
                Some(*fault)
            } else {
                Some(held)
            },
        };
    }
    first
}
