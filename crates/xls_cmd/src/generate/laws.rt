//! The law of the command, the contract of a function that calls the laws below it.

ghost use Rattle.std.specs.Prelude.{ℕ, List, Ok};
ghost use Rattle.cmd_line.specs.declared.request.Gen.{Gen};
ghost use Rattle.xls_cmd.specs.Gen.Agreed.{AreLevelLines};
ghost use Rattle.xls_cmd.specs.Gen.Commands.{gen};

/// Whatever is written, its first four lines tell the same words: those of the text, of its package, of the optimised package, and of the text
/// by several threads.
pub fn levels_tell_the_same()
    ensures { (arguments : Gen) (text : List ℕ) → gen arguments (Ok text) → AreLevelLines text }
{
    dslx_total::counts::networks_keep_the_limits();
    dslx_total::nets::accepted_behaviors_keep_types();
    dslx_total::nets::behaviors_are_of_their_networks();
    ir_eval::outcomes::same_behavior_has_the_same_outcomes();
}
