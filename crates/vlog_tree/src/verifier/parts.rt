//! The rules and limits of each part of a module.

ghost use Rattle.std.specs.Prelude.{◌≡◌, ◌==◌, ◌&&◌, ◌||◌, ◌-◌, nat_lt, not, ℕ, List, [], ◌∷◌, length, true, Some, codes};
ghost use Rattle.vlog_tree.specs.declared.module.VModule.{VModule as Module};
ghost use Rattle.vlog_tree.specs.Signals.{Declared, signals};
ghost use Rattle.vlog_tree.specs.Forms.{atom_reads, reads};
ghost use Rattle.vlog_tree.specs.Verifier.Checks.{noted};
ghost use Rattle.vlog_tree.specs.Verifier.Inner.Seen.{due_of};
ghost use Rattle.vlog_tree.specs.Verifier.Parts.{count_of, role_at, is_listed, is_target, are_declared, is_driven, bars_assignment, bars_set, is_signal, is_declared_assignment, is_declared_set, is_wrong_set, signal_checks, port_checks, assignment_checks, set_checks, is_among};

use crate::verifier::checks::{note_rule, note_width};
use crate::verifier::fitting::{atom_width, fits};
use crate::verifier::ports::{Due, port_fits};
use crate::verifier::rule;
use crate::{Assignment, Atom, Port, Role, Set, VModule};
use xb_span::{Fault, Span};

pub fn is_driven(role: Option<Role>) -> bool
    ensures { result ≡ is_driven role }
{
    match role {
        Some(Role::WireSignal) => true,
        _ => false,
    }
}

fn bars_assignment(role: Option<Role>) -> bool
    ensures { result ≡ bars_assignment role }
{
    match role {
        Some(Role::InputSignal) => true,
        Some(Role::RegisterSignal) => true,
        _ => false,
    }
}

fn bars_set(role: Option<Role>) -> bool
    ensures { result ≡ bars_set role }
{
    match role {
        Some(Role::InputSignal) => true,
        Some(Role::WireSignal) => true,
        _ => false,
    }
}

fn is_signal(atom: Atom) -> bool
    ensures { result ≡ is_signal atom }
{
    match atom {
        Atom::Signal(_) => true,
        Atom::Literal(_) => false,
    }
}

/// Whether these are signals among so many.
pub fn are_declared(count: usize, signals: &[u32]) -> bool
    ensures { result ≡ are_declared count signals.now }
{
    signals.iter().all(|s| (*s as usize) < count)
}

/// Whether the clock is among these signals.
pub fn lists_clock(signals: &[u32]) -> bool
    ensures { result ≡ is_listed signals.now 0 }
{
    signals.iter().any(|s| *s == 0)
}

/// Notes the faults of a port or a declaration: another before it has its name or not, and an assignment drives it or not.
pub fn note_signal(
    held: Option<Fault>,
    span: Span,
    is_again: bool,
    is_aim: bool,
    role: Option<Role>,
    width: u64,
) -> Option<Fault>
    ensures { (m : Module) (targets : List ℕ) (names : List (List ℕ)) (s : ℕ) (d : Declared) → is_again ≡ is_among names d.name → is_aim ≡ is_target (count_of m) targets s
        → role ≡ Some d.role → width ≡ d.width → result ≡ noted held (signal_checks m targets span names s d) }
{
    let held = note_rule(held, span, rule::SIGNAL_IS_DECLARED_ONCE, is_again);
    let held = note_rule(held, span, rule::ONE_DRIVER, is_driven(role) && !is_aim);
    note_width(held, span.to, width)
}

/// Notes the fault of a port where this one must come next.
pub fn note_port(held: Option<Fault>, span: Span, due: Due<'_>, port: &Port) -> Option<Fault>
    ensures { result ≡ noted held (port_checks span (due_of due.entry) port.now) }
{
    note_rule(held, span, rule::PORTS_ARE_CHANNELS, !port_fits(due, port))
}

/// Notes the faults of an assignment: an earlier one has its target or not, and it reads these signals.
pub fn note_assignment(
    held: Option<Fault>,
    design: &VModule,
    span: Span,
    is_second: bool,
    read: &[u32],
    assignment: &Assignment,
) -> Option<Fault>
    requires { read.now ≡ reads assignment.now.value }
    ensures { (earlier : List ℕ) → is_second ≡ is_target (count_of design.now) earlier assignment.now.target.0
        → result ≡ noted held (assignment_checks design.now span earlier assignment.now) }
{
    let target = assignment.target.0 as usize;
    let count = design.signal_count();
    let known = target < count && are_declared(count, read);
    let held = note_rule(held, span, rule::SIGNAL_IS_DECLARED_ONCE, !known);
    let held = note_rule(
        held,
        span,
        rule::TARGET_MAY_BE_SET,
        bars_assignment(design.role_of(target)),
    );
    let held = note_rule(held, span, rule::ONE_DRIVER, is_second);
    let unfit = known && !fits(design, design.width_of(target), &assignment.value);
    let held = note_rule(held, span, rule::WIDTHS_AGREE, unfit);
    note_rule(held, span, rule::PORTS_ARE_CHANNELS, lists_clock(read))
}

/// Notes the faults of a set: an earlier one of its branch has its target or not, the other branch has it or not, and its
/// value reads these signals.
pub fn note_set(
    held: Option<Fault>,
    design: &VModule,
    span: Span,
    is_reset: bool,
    is_second: bool,
    is_in_other: bool,
    read: &[u32],
    set: &Set,
) -> Option<Fault>
    requires { read.now ≡ atom_reads set.now.value }
    ensures { (others earlier : List ℕ) → is_second ≡ is_target (count_of design.now) earlier set.now.target.0 → is_in_other ≡ is_target (count_of design.now) others set.now.target.0
        → result ≡ noted held (set_checks design.now is_reset others span earlier set.now) }
{
    let target = set.target.0 as usize;
    let count = design.signal_count();
    let known = target < count && are_declared(count, read);
    let held = note_rule(held, span, rule::SIGNAL_IS_DECLARED_ONCE, !known);
    let wrong = bars_set(design.role_of(target))
        || (target < count && !is_in_other)
        || (is_reset && is_signal(set.value));
    let held = note_rule(held, span, rule::TARGET_MAY_BE_SET, wrong);
    let held = note_rule(held, span, rule::ONE_DRIVER, is_second);
    let unfit = known && atom_width(design, set.value) != design.width_of(target);
    let held = note_rule(held, span, rule::WIDTHS_AGREE, unfit);
    note_rule(held, span, rule::PORTS_ARE_CHANNELS, lists_clock(read))
}
