//! Laws of the numbers on a module's signals, each the contract of a function that calls the law below it.

ghost use Rattle.std.specs.Prelude.{◌≡◌, ◌<◌, ℕ, List, length};
ghost use Rattle.vlog_tree.specs.declared.module.VModule.{VModule};
ghost use Rattle.vlog_tree.specs.declared.row.Outs.{Outs};
ghost use Rattle.vlog_tree.specs.declared.row.Row.{Row};
ghost use Rattle.vlog_tree.specs.declared.signal.Role.TheVariants.{InputSignal, RegisterSignal};
ghost use Rattle.vlog_tree.specs.Meaning.{IsNow};
ghost use Rattle.vlog_tree.specs.Rows.{Runs, given as given_in};
ghost use Rattle.vlog_tree.specs.Signals.{signals, declared_widths};
ghost use Rattle.vlog_tree.specs.Value.{Values};
ghost use Rattle.vlog_tree.specs.WellFormed.{CanRun};
ghost use Rattle.block_build.specs.Netlist.Order.{CarriesWord};
ghost use Rattle.block_verilog.specs.Widths.{CarryWords, IsInputRow, AreInputRows};

/// In a module that can be simulated all signals carry numbers of their widths: in each cycle where what the outside gives and
/// what registers hold does, and so in all rows in which the outside gives words of the channels' widths.
pub fn signals_carry_words()
    ensures now { (m : VModule) (held given values : Values) → CanRun m → CarryWords m InputSignal given → CarryWords m RegisterSignal held →
        IsNow m held given values → (s : ℕ) → s < length (signals m) → CarriesWord (declared_widths m) values s }
    ensures given { (m : VModule) (row : Row) → CanRun m → IsInputRow m row → CarryWords m InputSignal (given_in m row) }
    ensures rows { (m : VModule) (rows : List Row) (outs : List Outs) (held : Values) → CanRun m → AreInputRows m rows → Runs m rows outs held →
        (s : ℕ) → CarriesWord (declared_widths m) held s }
{
    block_build::netlist::laws::wires_carry_words();
}
