//! What holds of simulations, each the contract of a function that does nothing.

ghost use Rattle.std.specs.Prelude.{◌≡◌, ℕ, List};
ghost use Rattle.vlog_tree.specs.declared.module.VModule.{VModule};
ghost use Rattle.vlog_tree.specs.declared.row.Row.{Row};
ghost use Rattle.cycle_sim.specs.Cycles.Simulated.{IsSimulated};

/// A module and rows have one text.
pub fn one_text()
    ensures { (m : VModule) (rows : List Row) (a b : List ℕ) → IsSimulated m rows a → IsSimulated m rows b → a ≡ b }
{}
