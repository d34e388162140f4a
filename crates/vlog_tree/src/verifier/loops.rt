//! Which wires depend on themselves.

ghost use Rattle.std.specs.Prelude.{◌≡◌, ◌++◌, ◌∷◌, [], ℕ, List, ◌<◌, ◌^◌, IfOk, OnOk, length, replicate, MatchBool};
ghost use Rattle.vlog_tree.specs.Verifier.Loops.{Depends};
ghost use Rattle.vlog_tree.specs.Verifier.Parts.{count_of, is_driven};
ghost use Rattle.vlog_tree.specs.Verifier.Inner.Firsts.{IsFirstLoop, AreLoops, AreNeeds, AreNeedsBefore, AreFreeBefore, wires_among, needs_with};

use crate::verifier::parts::is_driven;
use crate::{Assignment, VModule};
use base::topo_order::needing_themselves;
use sqlite_items::Items;
use std::alloc::{AllocError, Global};

/// The most signals and assignments that are numbered.
const MOST: usize = u32::MAX as usize;

/// The index of the first assignment whose target depends on itself, if there is one.
///
/// It takes time and memory linear in the module.
pub fn first_loop(alloc: Global, design: &VModule) -> Result<Option<usize>, AllocError>
    ensures first { IfOk result (λ place. IsFirstLoop design.now place) }
    ensures few { IfOk result (λ _. length design.now.assignments < 2 ^ 32) }
{
    if MOST < design.signal_count() || MOST < design.assignments.as_slice().len() {
        return Err(AllocError);
    }
    let loops = loops_of(alloc, design)?;
    Ok(first_among(design, &loops))
}

/// Of each signal whether it is a wire that depends on itself.
fn loops_of(alloc: Global, design: &VModule) -> Result<Vec<bool>, AllocError>
    requires { count_of design.now < 2 ^ 32 }
    ensures { IfOk result (λ loops. AreLoops design.now loops.items) }
{
    let needs = needs_of(alloc, design)?;
    let loops = needing_themselves(alloc, &needs)?;
    Ok(loops)
}

/// The index of the first assignment whose target is one of these.
fn first_among(design: &VModule, loops: &[bool]) -> Option<usize>
    requires { AreLoops design.now loops.now }
    ensures { IsFirstLoop design.now result }
{
    let assignments = design.assignments.as_slice();
    'assignments: for i in 0..assignments.len() {
        if depends_on_itself(design, loops, assignments[i].target.0) {
            return Some(i);
        }
    }
    None
}

/// Whether a signal is a wire that depends on itself.
fn depends_on_itself(design: &VModule, loops: &[bool], signal: u32) -> bool
    requires { AreLoops design.now loops.now }
    ensures { MatchBool result (Depends design.now signal signal) (¬ (Depends design.now signal signal)) }
{
    match loops.get(signal as usize) {
        Some(does) => *does,
        None => false,
    }
}

/// The wires that each signal reads.
fn needs_of(alloc: Global, design: &VModule) -> Result<Vec<Items<u32>>, AllocError>
    ensures { IfOk result (λ needs. AreNeeds design.now needs.items) }
{
    let mut needs = no_needs(alloc, design.signal_count())?;
    let assignments = design.assignments.as_slice();
    'assignments: for i in 0..assignments.len() {
        push_needs(alloc, design, &mut needs, &assignments[i])?;
    }
    Ok(needs)
}

/// The needs of so many signals, all empty.
fn no_needs(alloc: Global, count: usize) -> Result<Vec<Items<u32>>, AllocError>
    ensures { IfOk result (λ needs. needs.items ≡ replicate count []) }
{
    let mut needs = Vec::new(alloc);
    for made in 0..count {
        needs.push(Items::new(alloc))?;
    }
    Ok(needs)
}

/// Puts the wires that an assignment reads behind the needs of its target, if that is a wire.
fn push_needs(
    alloc: Global,
    design: &VModule,
    needs: &mut Vec<Items<u32>>,
    assignment: &Assignment,
) -> Result<(), AllocError>
    requires { length needs.old.items ≡ count_of design.now }
    ensures { OnOk result (needs.new.items ≡ needs_with design.now needs.old.items assignment.now) }
{
    let target = assignment.target.0 as usize;
    if !is_driven(design.role_of(target)) {
        return Ok(());
    }
    let mut read = Items::new(alloc);
    assignment.value.push_reads(&mut read)?;
    push_wires(design, &mut needs[target], read.as_slice())
}

/// Puts the wires among signals behind those that are there.
fn push_wires(design: &VModule, found: &mut Items<u32>, signals: &[u32]) -> Result<(), AllocError>
    ensures { OnOk result (found.new ≡ found.old ++ wires_among design.now signals.now) }
{
    for signal in signals {
        if is_driven(design.role_of(*signal as usize)) {
            found.push(*signal)?;
        }
    }
    Ok(())
}
