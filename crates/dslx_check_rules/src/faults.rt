//! Faults: the first one of all that were met.
ghost use Rattle.std.specs.Prelude.{◌≡◌, ◌<◌, ◌+◌, ◌-◌, ◌^◌, ◌++◌, ◌∷◌, [], ℕ, List, Some, false, min};
ghost use Rattle.xb_span.specs.declared.fault.Fault as one;
ghost use Rattle.dslx_meaning.specs.Rules.TypeEnvs as the;
ghost use Rattle.dslx_meaning.specs.Rules.ConstantRules as rules;
ghost use Rattle.dslx_check_rules.specs.Seen.{named, seen};

use xb_span::{Fault, Limit, Rule, Span, What};

/// All faults of a part: the one that is named of them, if there is one, and whether some of them is a rule that is broken.
#[derive(Clone, Copy)]
pub struct Faults {
    pub first: Option<Fault>,
    pub broken: bool,
}

impl Faults {
    /// None.
    pub fn none() -> Faults
        ensures { result ≡ seen [] }
    {
        Faults {
            first: None,
            broken: false,
        }
    }

    /// Whether there is none.
    pub fn is_empty(&self) -> bool
        ensures { (faults : List one.Fault) → self.now ≡ seen faults → result ≡ rules.is_empty faults }
    {
        self.first.is_none()
    }

    /// These and those.
    pub fn and(self, other: Faults) -> Faults
        ensures { (a b : List one.Fault) → self ≡ seen a → other ≡ seen b → result ≡ seen (a ++ b) }
    {
        Faults {
            first: earlier(self.first, other.first),
            broken: self.broken || other.broken,
        }
    }

    /// The part at this span breaks this rule.
    pub fn breaks(rule: u16, span: Span) -> Faults
        ensures { result ≡ seen (the.breaks rule span ∷ []) }
    {
        Faults {
            first: Some(Fault::Broken(Rule(rule), span)),
            broken: true,
        }
    }

    /// The part breaks the rule if this is so.
    pub fn breaks_if(is_broken: bool, rule: u16, span: Span) -> Faults
        ensures { result ≡ seen (the.breaks_if is_broken rule span) }
    {
        if is_broken {
            Faults::breaks(rule, span)
        } else {
            Faults::none()
        }
    }

    /// A quantity that is named itself, of which there is at most so much.
    #[tactic(auto, using(crate::proofs::Lemmas::Seen::passed, crate::proofs::Lemmas::Seen::not_passed))]
    pub fn passes(what: What, most: u64, end: u32, found: u64) -> Faults
        requires { most < 2 ^ 64 - 1 }
        ensures { (n : ℕ) → found ≡ the.found_number n → result ≡ seen (the.passes what most end n) }
    {
        if most < found {
            Faults::over(Fault::Passed(end, Limit { what, found, most }))
        } else {
            Faults::none()
        }
    }

    /// A quantity that is counted one by one, up to one more than there may be.
    #[tactic(auto, using(crate::proofs::Lemmas::Seen::count_passed, crate::proofs::Lemmas::Seen::count_not_passed))]
    pub fn passes_count(what: What, most: u64, end: u32, count: u64) -> Faults
        requires { most < 2 ^ 64 - 1 }
        ensures { (n : ℕ) → count ≡ min (most + 1) n → result ≡ seen (the.passes_count what most end n) }
    {
        if most < count {
            let found = most + 1;
            Faults::over(Fault::Passed(end, Limit { what, found, most }))
        } else {
            Faults::none()
        }
    }

    /// A limit that is passed.
    fn over(fault: Fault) -> Faults
        ensures { result ≡ record { first = Some fault; broken = false } }
    {
        Faults {
            first: Some(fault),
            broken: false,
        }
    }
}

/// The one of the two that is named.
fn earlier(a: Option<Fault>, b: Option<Fault>) -> Option<Fault>
    ensures { result ≡ named a b }
{
    match (a, b) {
        (None, other) => other,
        (held, None) => held,
        (Some(held), Some(fault)) => if fault.precedes(&held) {
            Some(fault)
        } else {
            Some(held)
        },
    }
}
