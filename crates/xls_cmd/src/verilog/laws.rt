//! The law of the command, the contract of a function that calls the laws below it.

ghost use Rattle.std.specs.Prelude.{◌≡◌, ℕ, List};
ghost use Rattle.xb_io.specs.Contents.{Contents};
ghost use Rattle.xls_cmd.specs.Shared.Agrees.{Agrees};
ghost use Rattle.cmd_line.specs.declared.request.Source.TheVariants.{Ir};
ghost use Rattle.cmd_line.specs.declared.request.Verilog.{Verilog};
ghost use Rattle.xls_cmd.specs.Verilog.Commands.{verilog};

/// What an IR text holds determines whether there is a text, and else the cause for which there is none. Of a design the program chooses the
/// package. What holds of each text stands in `specs/Verilog/Commands`.
pub fn answers_agree()
    ensures { (holds : Contents) (arguments : Verilog (List ℕ)) → arguments.source ≡ Ir → Agrees (verilog holds arguments) }
{
    ir_text::parser::one_package();
    pipe_schedule::laws::one_list();
    pipe_schedule::laws::one_infeasible();
    pipe_schedule::laws::schedules_or_infeasible();
}
