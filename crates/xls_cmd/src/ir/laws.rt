//! Laws of the commands, each the contract of a function that calls the laws below it.

ghost use Rattle.std.specs.Prelude.{ℕ, List};
ghost use Rattle.xls_cmd.specs.Shared.Step.{IsOne};
ghost use Rattle.cmd_line.specs.declared.request.Run.{Run};
ghost use Rattle.xls_cmd.specs.Ir.Commands.{run_texts};

/// What the files hold determines what a run gives.
pub fn one_answer()
    ensures { (arguments : Run (List ℕ)) (design inputs : List ℕ) → IsOne (run_texts arguments design inputs) }
{
    ir_text::parser::one_package();
    crate::design::laws::one_answer();
}
