//! The rules and limits of a module.

ghost use Rattle.std.specs.Prelude.{◌≡◌, ◌⊎◌, ◌<◌, ◌^◌, length, IfOk, OnOk, IfErr, Some, None};
ghost use Rattle.xb_span.specs.Fault.{error_of};
ghost use Rattle.xb_span.specs.declared.fault.Fault.{Fault as AnyFault};
ghost use Rattle.xb_span.specs.declared.read_error.ReadError.TheVariants.{OutOfMemory};
ghost use Rattle.vlog_tree.specs.WellFormed.{CanRun};
ghost use Rattle.vlog_tree.specs.Verifier.WithSpans.{no_spans};
ghost use Rattle.vlog_tree.specs.Verifier.Checks.{noted};
ghost use Rattle.vlog_tree.specs.Verifier.Verified.{module_checks, IsVerdict};

use crate::VModule;
use crate::verifier::checks::note_rule;
use crate::verifier::loops::first_loop;
use crate::verifier::marks::Marks;
use crate::verifier::part_spans::{PartSpans, span_at};
use crate::verifier::rule;
use crate::verifier::walks::{
    note_assignments, note_branches, note_literals, note_ports, note_signals,
};
use std::alloc::{AllocError, Global};
use xb_span::{Fault, ReadError};

/// Whether the module breaks no rule and passes no limit. Its parts count as standing at 0..0, so the rule of the least
/// number is named, or the first limit. What it accepts can be simulated.
///
/// It takes time and memory linear in the module.
pub fn verify(alloc: Global, design: &VModule) -> Result<(), ReadError>
    ensures ok { OnOk result (IsVerdict design.now no_spans None) }
    ensures runs { OnOk result (CanRun design.now) }
    ensures refused { IfErr result (λ error. (error ≡ OutOfMemory) ⊎ ((fault : AnyFault) × IsVerdict design.now no_spans (Some fault) × (error ≡ error_of fault))) }
{
    check(alloc, design, &PartSpans::none(alloc))
}

/// The same for a module that stands in a text, whose parts have these spans.
pub fn check(alloc: Global, design: &VModule, part_spans: &PartSpans) -> Result<(), ReadError>
    ensures ok { OnOk result (IsVerdict design.now part_spans.now None) }
    ensures runs { OnOk result (CanRun design.now) }
    ensures refused { IfErr result (λ error. (error ≡ OutOfMemory) ⊎ ((fault : AnyFault) × IsVerdict design.now part_spans.now (Some fault) × (error ≡ error_of fault))) }
{
    match first_fault(alloc, design, part_spans) {
        Err(_) => Err(ReadError::OutOfMemory),
        Ok(None) => Ok(()),
        Ok(Some(fault)) => Err(fault.error()),
    }
}

/// The fault that is named, if there is one.
fn first_fault(
    alloc: Global,
    design: &VModule,
    part_spans: &PartSpans,
) -> Result<Option<Fault>, AllocError>
    ensures judged { IfOk result (λ fault. IsVerdict design.now part_spans.now fault) }
    ensures few { IfOk result (λ _. length design.now.assignments < 2 ^ 32) }
{
    let held = plain_fault(alloc, design, part_spans)?;
    match first_loop(alloc, design)? {
        None => Ok(held),
        Some(place) => {
            let span = span_at(part_spans.assignments.as_slice(), place);
            Ok(note_rule(held, span, rule::NO_COMBINATIONAL_LOOP, true))
        }
    }
}

/// The same, but for wires that depend on themselves.
fn plain_fault(
    alloc: Global,
    design: &VModule,
    part_spans: &PartSpans,
) -> Result<Option<Fault>, AllocError>
    ensures { IfOk result (λ fault. fault ≡ noted None (module_checks design.now part_spans.now)) }
{
    let assignments = design.assignments.as_slice();
    let driven = Marks::of_assignments(alloc, design.signal_count(), assignments)?;
    let held = note_signals(alloc, None, design, part_spans, &driven)?;
    let held = note_ports(held, design, part_spans);
    let held = note_assignments(alloc, held, design, part_spans)?;
    let held = note_branches(alloc, held, design, part_spans)?;
    let held = note_literals(alloc, held, design, part_spans)?;
    Ok(held)
}
