//! The law of the command, the contract of a function that calls the law below it.

ghost use Rattle.std.specs.Prelude.{ℕ, List};
ghost use Rattle.xb_io.specs.Contents.{Contents};
ghost use Rattle.cmd_line.specs.declared.request.Ir.{Ir};
ghost use Rattle.xls_cmd.specs.Lowered.Commands.{ir_of_design};
ghost use Rattle.xls_cmd.specs.Shared.Agrees.{Agrees};

/// What the file holds determines whether there is a text, and else the cause for which there is none. What holds of each text stands in
/// `specs/Lowered/Commands`.
pub fn answers_agree()
    ensures { (holds : Contents) (arguments : Ir (List ℕ)) → Agrees (ir_of_design holds arguments) }
{
    dslx::one_module();
}
