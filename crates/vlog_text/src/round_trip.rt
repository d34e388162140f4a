//! Printing a module of the Verilog subset, and reading the text again.
ghost use Rattle.std.specs.Prelude.{◌≡◌, ◌<◌, ◌^◌, None, Ok, length};
ghost use Rattle.vlog_tree.specs.declared.module.VModule.{VModule};
ghost use Rattle.vlog_tree.specs.Verifier.WithSpans.{no_spans};
ghost use Rattle.vlog_tree.specs.Verifier.Verified.{IsVerdict};
ghost use Rattle.vlog_text.specs.Printer.ModuleText.{module_text};
ghost use Rattle.vlog_text.specs.Reader.Given.{GivesModule};
ghost use Rattle.vlog_text.specs.RoundTrip.Names.{HasTextNames};

use vlog_tree::verifier::laws::verified_modules_can_run;

/// The text that is printed of a module which breaks no rule and passes no limit reads as that module, if its names are names of
/// texts and the text is shorter than 2^32 bytes. What `vlog_tree::verifier::verify` accepts is such a module.
pub fn printed_modules_read_back()
    ensures { (m : VModule) → IsVerdict m no_spans None → HasTextNames m → length (module_text m) < 2 ^ 32 → GivesModule (module_text m) (Ok m) }
{
    verified_modules_can_run();
}
