ghost use Rattle.std.specs.Prelude.{◌≡◌, ◌<◌, ◌^◌, length, map, filter_map, All, [], ◌∷◌, ◌++◌, OnOk, IfOk};
ghost use Rattle.std.specs.List.{AllByRecursion};
ghost use Rattle.vlog_tree.specs.Forms.{reads};
ghost use Rattle.vlog_tree.specs.Signals.{signals as module_signals};
ghost use Rattle.vlog_tree.specs.WellFormed.{CanRun};
ghost use Rattle.cycle_sim.specs.Drivers.{AreDrivers, driver_at, needs_by};
ghost use Rattle.cycle_sim.specs.Sim.{IsOrder};

use base::topo_order::{Sorted, sort};
use sqlite_items::Items;
use std::alloc::{AllocError, Global};
use vlog_tree::{Assignment, VModule};

/// The indices of a module's assignments in an order in which each reads only what is there before it.
pub fn order_of(alloc: Global, design: &VModule, signals: usize) -> Result<Vec<u32>, AllocError>
    requires runs { CanRun design.now }
    requires signals { signals ≡ length (module_signals design.now) }
    ensures { IfOk result (λ indices. IsOrder design.now indices.items) }
{
    let assignments = design.assignments.as_slice();
    let drivers = drivers_of(alloc, signals, assignments)?;
    let needs = needs_of(alloc, assignments, &drivers)?;
    match sort(alloc, &needs)? {
        Sorted::Order(indices) => Ok(indices),
        Sorted::Cycle(_) => unreachable!(),
    }
}

/// Which assignment drives each of so many signals.
fn drivers_of(
    alloc: Global,
    count: usize,
    assignments: &[Assignment],
) -> Result<Vec<Option<u32>>, AllocError>
    requires targets { All (λ a. a.target.0 < count) assignments.now }
    requires few { length assignments.now < 2 ^ 32 }
    ensures size { IfOk result (λ drivers. length drivers.items ≡ count) }
    ensures drivers { IfOk result (λ drivers. AreDrivers assignments.now drivers.items) }
{
    let mut drivers = vec![in alloc; None; count]?;
    for (i, assignment) in assignments.iter().enumerate() {
        drivers[assignment.target.0 as usize] = Some(i as u32);
    }
    Ok(drivers)
}

/// What each assignment needs: those that drive what it reads.
fn needs_of(
    alloc: Global,
    assignments: &[Assignment],
    drivers: &[Option<u32>],
) -> Result<Vec<Items<u32>>, AllocError>
    requires { All (λ a. AllByRecursion (λ s. s < length drivers.now) (reads a.value)) assignments.now }
    ensures { IfOk result (λ needs. needs.items ≡ map (needs_by drivers.now) assignments.now) }
{
    let mut needs = Vec::new(alloc);
    for assignment in assignments {
        needs.push(needs_of_one(alloc, assignment, drivers)?)?;
    }
    Ok(needs)
}

/// The assignments that drive what an assignment reads.
fn needs_of_one(
    alloc: Global,
    assignment: &Assignment,
    drivers: &[Option<u32>],
) -> Result<Items<u32>, AllocError>
    requires { AllByRecursion (λ s. s < length drivers.now) (reads assignment.now.value) }
    ensures { IfOk result (λ needs. needs ≡ needs_by drivers.now assignment.now) }
{
    let mut read = Items::new(alloc);
    assignment.value.push_reads(&mut read)?;
    drivers_at(alloc, read.as_slice(), drivers)
}

/// The drivers of the signals that have one.
fn drivers_at(
    alloc: Global,
    signals: &[u32],
    drivers: &[Option<u32>],
) -> Result<Items<u32>, AllocError>
    requires { AllByRecursion (λ s. s < length drivers.now) signals.now }
    ensures { IfOk result (λ found. found ≡ filter_map (driver_at drivers.now) signals.now) }
{
    let mut found = Items::new(alloc);
    for signal in signals {
        push_found(&mut found, drivers[*signal as usize])?;
    }
    Ok(found)
}

/// Puts what was found behind what is there.
fn push_found(found: &mut Items<u32>, more: Option<u32>) -> Result<(), AllocError>
    ensures { OnOk result (found.new ≡ found.old ++ filter_map (λ o. o) (more ∷ [])) }
{
    if let Some(driver) = more {
        found.push(driver)?;
    }
    Ok(())
}
