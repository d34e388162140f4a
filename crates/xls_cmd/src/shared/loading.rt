ghost use Rattle.std.specs.Prelude.{◌≡◌, ◌<◌, ◌≤◌, ◌^◌, ◌++◌, ◌∷◌, [], length, Ok, Err, IfOk, IfErr, OnOk};
ghost use Rattle.xls_cmd.specs.Shared.Done.{IsRefused, StopsBy};
ghost use Rattle.xls_cmd.specs.Shared.Events.{file_events};
ghost use Rattle.xls_cmd.specs.Shared.Loads.{Loads, text_of};
ghost use Rattle.xls_cmd.specs.Shared.Step.{ExpectedBy, Gives};

use crate::shared::fault::Fault;
use crate::shared::refusal::Refusal;
use std::alloc::Global;
use std::str;
use xb_io::{Files, LoadError};
use xb_span::ReadError;

/// The bytes of the file of that name.
pub fn load<'a, F: Files>(
    alloc: Global,
    files: &mut F,
    name: &'a str,
) -> Result<Vec<u8>, Refusal<'a>>
    ensures told_stays { F.told files.new ≡ F.told files.old }
    ensures asks { F.asked files.new ≡ F.asked files.old ++ name.entry.now ∷ [] }
    ensures taken_never_falls { F.taken files.old ≤ F.taken files.new }
    ensures loaded { IfOk result (λ bytes. ExpectedBy (F.told files.old) (λ holds. Loads holds name.entry.now) (Ok bytes.items)) }
    ensures short { IfOk result (λ bytes. length bytes.items < 2 ^ 32) }
    ensures sound { OnOk result (F.faults files.new ≡ F.faults files.old) }
    ensures refused { IfErr result (IsRefused (ExpectedBy (F.told files.old) (λ holds. Loads holds name.entry.now))
        (file_events F.asked F.faults F.taken files.old files.new) (name.entry.now ∷ [])) }
{
    match files.load(alloc, name) {
        Ok(bytes) => Ok(bytes),
        Err(LoadError::OutOfMemory) => Err(Refusal::OutOfMemory),
        Err(LoadError::TooBig(_)) => Err(Refusal::Fault(Fault::TooBig(name))),
        Err(LoadError::Failed) => Err(Refusal::Unread(name)),
    }
}

/// A file's bytes as a text, of less than 2^32 bytes.
pub fn read_text<'a, 'b>(name: &'a str, bytes: &'b [u8]) -> Result<&'b str, Refusal<'a>>
    requires { length bytes.now < 2 ^ 32 }
    ensures found { IfOk result (λ text. Ok text.now ≡ text_of name.entry.now bytes.entry.now) }
    ensures refused { IfErr result (StopsBy (Gives (text_of name.entry.now bytes.entry.now))) }
{
    match str::from_utf8(bytes) {
        Ok(text) => Ok(text),
        Err(error) => {
            let at = ReadError::Syntax(error.valid_up_to() as u32);
            Err(Refusal::Fault(Fault::Text(name, at)))
        }
    }
}
