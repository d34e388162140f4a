//! Checks in their order, and the fault that is named.

ghost use Rattle.std.specs.Prelude.{◌≡◌, ◌∷◌, [], List};
ghost use Rattle.ir_tree.specs.Rules.Checks.{note, noted, rule_at, limit_at};

use crate::node_types::bounded;
use xb_span::{Fault, Limit, Rule, Span, What};

/// Of the fault that was found before, if any, and this one, if it is there, the one that is named.
pub fn note(held: Option<Fault>, broken: bool, fault: Fault) -> Option<Fault>
    ensures { result ≡ note broken fault held }
{
    if !broken {
        return held;
    }
    match held {
        None => Some(fault),
        Some(first) => if fault.precedes(&first) {
            Some(fault)
        } else {
            Some(first)
        },
    }
}

/// Notes a rule that a line breaks or not.
pub fn note_rule(held: Option<Fault>, span: Span, rule: u16, broken: bool) -> Option<Fault>
    ensures { result ≡ noted held (rule_at span rule broken ∷ []) }
{
    note(held, broken, Fault::Broken(Rule(rule), span))
}

/// Notes a quantity of a line, which passes its limit or not.
pub fn note_limit(held: Option<Fault>, end: u32, what: What, found: u64, most: u64) -> Option<Fault>
    ensures { result ≡ noted held (limit_at end what found most ∷ []) }
{
    let limit = Limit { what, found, most };
    note(held, most < found, Fault::Passed(end, limit))
}
