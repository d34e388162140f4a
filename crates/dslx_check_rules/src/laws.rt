//! What holds of what is kept of faults.

ghost use Rattle.std.specs.Prelude.{◌≡◌, ◌↔◌, ◌++◌, ◌||◌, [], List, None};
ghost use Rattle.std.specs.List.{Contains};
ghost use Rattle.xb_span.specs.Fault.{first_of};
ghost use Rattle.xb_span.specs.declared.fault.Fault.{Fault};
ghost use Rattle.dslx_meaning.specs.Rules.TypeEnvs.{has_broken};
ghost use Rattle.dslx_check_rules.specs.Seen.{named, seen};

/// What is kept of two lists of faults is what is kept of what is kept of each.
pub fn kept_of_parts()
    ensures { (a b : List Fault) → seen (a ++ b) ≡ record { first = named (first_of a) (first_of b); broken = has_broken a || has_broken b } }
{}

/// What is kept depends on which faults there are alone: not on their order, nor on how often each was met.
pub fn kept_of_one_set()
    ensures { (a b : List Fault) → ((f : Fault) → Contains a f ↔ Contains b f) → seen a ≡ seen b }
{}

/// No fault is kept only where there is none.
pub fn nothing_kept_of_none()
    ensures { (faults : List Fault) → (first_of faults ≡ None) ↔ (faults ≡ []) }
{}
