//! Laws of what is named, each the contract of a function without a body.

ghost use Rattle.std.specs.Prelude.{◌≡◌, ◌<◌, ◌^◌, length, None, Option};
ghost use Rattle.xb_span.specs.declared.fault.Fault.{Fault};
ghost use Rattle.vlog_tree.specs.declared.module.VModule.{VModule};
ghost use Rattle.vlog_tree.specs.WellFormed.{CanRun};
ghost use Rattle.vlog_tree.specs.declared.verifier.part_spans.PartSpans.{PartSpans};
ghost use Rattle.vlog_tree.specs.Verifier.Verified.{IsVerdict};

/// One thing is named of a module with the spans of its parts: one fault, or none.
pub fn one_judgement()
    ensures { (m : VModule) (part_spans : PartSpans) (one other : Option Fault) → IsVerdict m part_spans one → IsVerdict m part_spans other → one ≡ other }
{}

/// A module of which no fault is named can be simulated, if its assignments can be numbered by 32 bits.
pub fn verified_modules_can_run()
    ensures { (m : VModule) (part_spans : PartSpans) → IsVerdict m part_spans None → length m.assignments < 2 ^ 32 → CanRun m }
{}
