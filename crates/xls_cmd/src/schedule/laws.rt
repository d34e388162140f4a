//! The law of the command, the contract of a function that calls the laws below it.

ghost use Rattle.std.specs.Prelude.{◌≡◌, ℕ, List};
ghost use Rattle.xb_io.specs.Contents.{Contents};
ghost use Rattle.xls_cmd.specs.Shared.Step.{IsOne};
ghost use Rattle.cmd_line.specs.declared.request.Schedule.{Schedule};
ghost use Rattle.cmd_line.specs.declared.request.Source.TheVariants.{Ir};
ghost use Rattle.xls_cmd.specs.Schedule.Commands.{schedule};

/// What an IR text holds determines what the command gives. Of a design the program chooses the package.
pub fn one_answer()
    ensures { (holds : Contents) (arguments : Schedule (List ℕ)) → arguments.source ≡ Ir → IsOne (schedule holds arguments) }
{
    ir_text::parser::one_package();
    pipe_schedule::laws::one_list();
    pipe_schedule::laws::one_infeasible();
    pipe_schedule::laws::schedules_or_infeasible();
}
