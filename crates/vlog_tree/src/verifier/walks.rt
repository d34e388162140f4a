//! The rules and limits of all parts of a kind.

ghost use Rattle.std.specs.Prelude.{◌≡◌, ◌++◌, ◌∷◌, [], ℕ, List, get_or, IfOk, OnOk, length, flat_map};
ghost use Rattle.xb_span.specs.Spans.{nowhere};
ghost use Rattle.vlog_tree.specs.Forms.{literals, atom_literals};
ghost use Rattle.vlog_tree.specs.Verifier.Checks.{noted, walk, width_at};
ghost use Rattle.vlog_tree.specs.Verifier.Parts.{count_of, set_checks, see_set};
ghost use Rattle.vlog_tree.specs.Verifier.Verified.{targets, set_targets, signals_checks, ports_checks, end_check, assignments_checks, resets_checks, clocks_checks, set_literals, module_literals, literals_checks};
ghost use Rattle.vlog_tree.specs.Verifier.Inner.Seen.{ShowsMarks};

use crate::verifier::checks::{note_rule, note_width};
use crate::verifier::marks::Marks;
use crate::verifier::part_spans::{PartSpans, end_at, signal_span, span_at};
use crate::verifier::parts::{note_assignment, note_port, note_set, note_signal};
use crate::verifier::ports::{Due, due_behind, may_end};
use crate::verifier::rule;
use crate::{Set, VModule};
use base::name_table::Table;
use sqlite_items::Items;
use std::alloc::{AllocError, Global};
use xb_span::{Fault, Span};

/// Notes the faults of the ports and declarations. An assignment drives those that are marked.
pub fn note_signals(
    alloc: Global,
    held: Option<Fault>,
    design: &VModule,
    part_spans: &PartSpans,
    driven: &Marks,
) -> Result<Option<Fault>, AllocError>
    requires { ShowsMarks (count_of design.now) driven.now (targets design.now.assignments) }
    ensures { IfOk result (λ fault. fault ≡ noted held (signals_checks design.now part_spans.now)) }
{
    let mut names = Table::new(alloc);
    let mut held = held;
    'signals: for s in 0..design.signal_count() {
        let name = design.name_of(s);
        let is_again = names.has(name);
        names.put(name, ())?;
        let span = signal_span(design, part_spans, s);
        let role = design.role_of(s);
        held = note_signal(
            held,
            span,
            is_again,
            driven.has(s),
            role,
            design.width_of(s),
        );
    }
    Ok(held)
}

/// Notes the faults of the ports as a list.
pub fn note_ports(held: Option<Fault>, design: &VModule, part_spans: &PartSpans) -> Option<Fault>
    ensures { result ≡ noted held (ports_checks design.now part_spans.now ++ end_check design.now part_spans.now ∷ []) }
{
    let ports = design.ports.as_slice();
    let spans = part_spans.ports.as_slice();
    let mut due = Due::Clock;
    let mut held = held;
    'ports: for i in 0..ports.len() {
        let port = &ports[i];
        held = note_port(held, span_at(spans, i), due, port);
        due = due_behind(due, port);
    }
    let last = span_at(spans, ports.len().saturating_sub(1));
    note_rule(held, last, rule::PORTS_ARE_CHANNELS, !may_end(due))
}

/// Notes the faults of the assignments.
pub fn note_assignments(
    alloc: Global,
    held: Option<Fault>,
    design: &VModule,
    part_spans: &PartSpans,
) -> Result<Option<Fault>, AllocError>
    ensures { IfOk result (λ fault. fault ≡ noted held (assignments_checks design.now part_spans.now)) }
{
    let assignments = design.assignments.as_slice();
    let spans = part_spans.assignments.as_slice();
    let mut earlier = Marks::new(alloc, design.signal_count())?;
    let mut held = held;
    'assignments: for i in 0..assignments.len() {
        let assignment = &assignments[i];
        let target = assignment.target.0;
        let mut read = Items::new(alloc);
        assignment.value.push_reads(&mut read)?;
        let is_second = earlier.has(target as usize);
        let span = span_at(spans, i);
        held = note_assignment(held, design, span, is_second, read.as_slice(), assignment);
        earlier.mark(target as usize);
    }
    Ok(held)
}

/// Notes the faults of the sets of a branch. The other branch sets those that are marked.
fn note_sets(
    alloc: Global,
    held: Option<Fault>,
    design: &VModule,
    spans: &[Span],
    is_reset: bool,
    others: &Marks,
    sets: &[Set],
) -> Result<Option<Fault>, AllocError>
    ensures { (targets : List ℕ) → ShowsMarks (count_of design.now) others.now targets →
        IfOk result (λ fault. fault ≡ noted held (walk (λ earlier i set. set_checks design.now is_reset targets (get_or spans.now i nowhere) earlier set) see_set [] 0 sets.now)) }
{
    let mut earlier = Marks::new(alloc, design.signal_count())?;
    let mut held = held;
    'sets: for i in 0..sets.len() {
        let set = &sets[i];
        let target = set.target.0 as usize;
        let mut read = Items::new(alloc);
        set.value.push_reads(&mut read)?;
        let is_second = earlier.has(target);
        let is_in_other = others.has(target);
        let span = span_at(spans, i);
        held = note_set(
            held,
            design,
            span,
            is_reset,
            is_second,
            is_in_other,
            read.as_slice(),
            set,
        );
        earlier.mark(target);
    }
    Ok(held)
}

/// Notes the faults of both branches.
pub fn note_branches(
    alloc: Global,
    held: Option<Fault>,
    design: &VModule,
    part_spans: &PartSpans,
) -> Result<Option<Fault>, AllocError>
    ensures { IfOk result (λ fault. fault ≡ noted held (resets_checks design.now part_spans.now ++ clocks_checks design.now part_spans.now)) }
{
    let count = design.signal_count();
    let resets = design.at_reset.as_slice();
    let clocks = design.at_clock.as_slice();
    let at_reset = Marks::of_sets(alloc, count, resets)?;
    let at_clock = Marks::of_sets(alloc, count, clocks)?;
    let spans = part_spans.at_reset.as_slice();
    let held = note_sets(alloc, held, design, spans, true, &at_clock, resets)?;
    let spans = part_spans.at_clock.as_slice();
    let held = note_sets(alloc, held, design, spans, false, &at_reset, clocks)?;
    Ok(held)
}

/// The widths of all literals.
fn literals_of(alloc: Global, design: &VModule) -> Result<Items<u64>, AllocError>
    ensures { IfOk result (λ widths. widths ≡ module_literals design.now) }
{
    let mut found = Items::new(alloc);
    push_literals(design, &mut found)?;
    push_set_literals(design.at_reset.as_slice(), &mut found)?;
    push_set_literals(design.at_clock.as_slice(), &mut found)?;
    Ok(found)
}

/// Puts the widths of the assignments' literals behind those that are there.
fn push_literals(design: &VModule, found: &mut Items<u64>) -> Result<(), AllocError>
    ensures { OnOk result (found.new ≡ found.old ++ flat_map (λ a. literals a.value) design.now.assignments) }
{
    let assignments = design.assignments.as_slice();
    for assignment in assignments {
        assignment.value.push_literals(found)?;
    }
    Ok(())
}

/// Puts the widths of the sets' literals behind those that are there.
fn push_set_literals(sets: &[Set], found: &mut Items<u64>) -> Result<(), AllocError>
    ensures { OnOk result (found.new ≡ found.old ++ set_literals sets.now) }
{
    for set in sets {
        set.value.push_literals(found)?;
    }
    Ok(())
}

/// Notes the faults of the literals.
pub fn note_literals(
    alloc: Global,
    held: Option<Fault>,
    design: &VModule,
    part_spans: &PartSpans,
) -> Result<Option<Fault>, AllocError>
    ensures { IfOk result (λ fault. fault ≡ noted held (literals_checks design.now part_spans.now)) }
{
    let widths = literals_of(alloc, design)?;
    Ok(note_widths(held, part_spans.literals.as_slice(), widths.as_slice()))
}

/// Notes widths that pass their limit.
fn note_widths(held: Option<Fault>, ends: &[u32], widths: &[u64]) -> Option<Fault>
    ensures { result ≡ noted held (walk (λ _ i width. width_at (get_or ends.now i 0) width ∷ []) (λ (seen : ℕ) _. seen) 0 0 widths.now) }
{
    let mut held = held;
    'widths: for i in 0..widths.len() {
        held = note_width(held, end_at(ends, i), widths[i]);
    }
    held
}
