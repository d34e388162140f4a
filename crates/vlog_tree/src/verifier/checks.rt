//! Checks in their order, and the fault that is named.

ghost use Rattle.std.specs.Prelude.{◌≡◌, ◌∷◌, [], List};
ghost use Rattle.vlog_tree.specs.Verifier.Checks.{note, noted, rule_at, width_at};

use xb_span::{Fault, Limit, Rule, Span, What};

/// Of the fault that was found before, if any, and this one, if it is there, the one that is named.
pub fn note(held: Option<Fault>, broken: bool, fault: Fault) -> Option<Fault>
    ensures { result ≡ note broken fault held }
{
    if !broken {
        return held;
    }
    match held {
        None => Some(fault),
        Some(first) => if fault.precedes(&first) {
            Some(fault)
        } else {
            Some(first)
        },
    }
}

/// Notes a rule that a part breaks or not.
pub fn note_rule(held: Option<Fault>, span: Span, rule: u16, broken: bool) -> Option<Fault>
    ensures { result ≡ noted held (rule_at span rule broken ∷ []) }
{
    note(held, broken, Fault::Broken(Rule(rule), span))
}

/// Notes a width, which passes its limit or not.
pub fn note_width(held: Option<Fault>, end: u32, width: u64) -> Option<Fault>
    ensures { result ≡ noted held (width_at end width ∷ []) }
{
    let limit = Limit {
        what: What::Width,
        found: width,
        most: 128,
    };
    note(held, 128 < width, Fault::Passed(end, limit))
}
