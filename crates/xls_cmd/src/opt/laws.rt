//! The law of the command, the contract of a function that calls the law below it.

ghost use Rattle.std.specs.Prelude.{ℕ, List};
ghost use Rattle.xb_io.specs.Contents.{Contents};
ghost use Rattle.cmd_line.specs.declared.request.Opt.{Opt};
ghost use Rattle.xls_cmd.specs.Opt.Commands.{opt};
ghost use Rattle.xls_cmd.specs.Shared.Agrees.{Agrees};

/// What the file holds determines whether there is a text, and else the cause for which there is none. What holds of each text stands in
/// `specs/Opt/Commands`.
pub fn answers_agree()
    ensures { (holds : Contents) (arguments : Opt (List ℕ)) → Agrees (opt holds arguments) }
{
    dslx::one_module();
    ir_text::parser::one_package();
}
