//! What holds of the events of runs, each the contract of a function that does nothing.

ghost use Rattle.std.specs.Prelude.{◌≡◌};
ghost use Rattle.net_core.specs.Cuts.{Run, final_cut};
ghost use Rattle.net_core.specs.Outcomes.{outcome_of};
ghost use Rattle.net_core.specs.WellFormed.{IsRun};
ghost use Rattle.xls_gen.specs.Events.{events_told, total_events};

/// The outcome of a run tells how many events its procs have made.
pub fn outcomes_count_events()
    ensures { (run : Run) → IsRun run → events_told run.chans (outcome_of run (final_cut run)) ≡ total_events run (final_cut run) }
{}
