//! Laws of the commands, each the contract of a function that calls the laws below it.

ghost use Rattle.std.specs.Prelude.{ℕ, List};
ghost use Rattle.xb_io.specs.Contents.{Contents};
ghost use Rattle.xls_cmd.specs.Shared.Step.{IsOne};
ghost use Rattle.cmd_line.specs.declared.request.Check.{Check};
ghost use Rattle.cmd_line.specs.declared.request.Run.{Run};
ghost use Rattle.xls_cmd.specs.Design.Commands.{ReadsInputs, check, run_texts};
ghost use Rattle.net_core.specs.declared.net.Net.{Net};

/// What the files hold determines what `check` and a run give, and what a channel file says.
pub fn one_answer()
    ensures check { (holds : Contents) (arguments : Check (List ℕ)) → IsOne (check holds arguments) }
    ensures run { (arguments : Run (List ℕ)) (design inputs : List ℕ) → IsOne (run_texts arguments design inputs) }
    ensures inputs { (name file : List ℕ) (net : Net) → IsOne (ReadsInputs name file net) }
{
    dslx::one_module();
}
