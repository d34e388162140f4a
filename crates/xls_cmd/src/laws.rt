//! Laws of what the program answers, each the contract of a function that calls the laws of the commands.
ghost use Rattle.std.specs.Prelude.{◌≡◌, ℕ, List, Result, Some, true};
ghost use Rattle.xls_cmd.specs.Shared.Fault.{Fault};
ghost use Rattle.cmd_line.specs.declared.request.Run.{Run};
ghost use Rattle.cmd_line.specs.declared.request.Source.{Source};
ghost use Rattle.xb_io.specs.Contents.{Contents};
ghost use Rattle.xls_cmd.specs.Shared.Step.{IsOne};
ghost use Rattle.xls_cmd.specs.Shared.Agrees.{Agrees};
ghost use Rattle.xls_cmd.specs.Answer.{by_workers, expected, is_exact, is_settled};
ghost use Rattle.xls_cmd.specs.Run.Commands.{run_by};

/// The words and the files determine what is expected, but for the texts of packages and of modules, and for the schedules of a package that the
/// program chooses, whether there are any, and what its module moves under `gen`.
pub fn one_answer()
    ensures one { (words : List (List ℕ)) (holds : Contents) → is_exact words ≡ true → IsOne (expected words (Some holds)) }
    ensures agrees { (words : List (List ℕ)) (holds : Contents) → is_settled words ≡ true → Agrees (expected words (Some holds)) }
{
    crate::design::laws::one_answer();
    crate::ir::laws::one_answer();
    crate::sim::laws::one_answer();
    crate::schedule::laws::one_answer();
    crate::opt::laws::answers_agree();
    crate::verilog::laws::answers_agree();
    crate::lowered::laws::answers_agree();
}

/// What a run gives is the same by any number of workers.
pub fn any_workers()
    ensures { (source : Source) (holds : Contents) (arguments : Run (List ℕ)) (count : ℕ) (given : Result (List ℕ) Fault) →
        (run_by source holds (by_workers count arguments) given → run_by source holds arguments given)
        × (run_by source holds arguments given → run_by source holds (by_workers count arguments) given) }
{}
