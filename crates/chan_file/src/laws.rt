//! What holds of channel files, each the contract of a function that does nothing.

ghost use Rattle.std.specs.Prelude.{◌≡◌, ℕ, List, Result, Ok};
ghost use Rattle.net_core.specs.declared.net.Net.{Net};
ghost use Rattle.net_core.specs.declared.net.Inputs.{Inputs};
ghost use Rattle.net_core.specs.WellFormed.{IsNet, IsInputs};
ghost use Rattle.chan_file.specs.declared.refusal.Cause.{Cause};
ghost use Rattle.chan_file.specs.ChannelFile.{Reads};

/// A text says one thing of a network's inputs: their words, or one cause and one position.
pub fn one_reading()
    ensures { (net : Net) (text : List ℕ) (a b : Result Inputs (Cause × ℕ)) → Reads net text a → Reads net text b → a ≡ b }
{}

/// The words that a text says are those of the network's inputs: of the widths of their channels, and of no others.
pub fn inputs_fit()
    ensures { (net : Net) (text : List ℕ) (inputs : Inputs) → IsNet net → Reads net text (Ok inputs) → IsInputs net inputs.words }
{}
