//! Laws of the command, each the contract of a function that calls the laws below it.

ghost use Rattle.std.specs.Prelude.{ℕ, List};
ghost use Rattle.xb_io.specs.Contents.{Contents};
ghost use Rattle.xls_cmd.specs.Shared.Step.{IsOne};
ghost use Rattle.cmd_line.specs.declared.request.Sim.{Sim};
ghost use Rattle.xls_cmd.specs.Sim.Simulation.{sim};

/// What the files hold determines what the command gives.
pub fn one_answer()
    ensures { (holds : Contents) (arguments : Sim (List ℕ)) → IsOne (sim holds arguments) }
{
    vlog_text::reader::laws::one_module();
    cycle_sim::rows::laws::one_reading();
    cycle_sim::cycles::laws::one_text();
}
