ghost use Rattle.std.specs.Prelude.{◌≡◌, Ok, Err, MatchResult};
ghost use Rattle.xls_cmd.specs.Shared.Done.{text_refusal};
ghost use Rattle.xls_cmd.specs.declared.shared.refusal.Refusal.TheVariants.{OutOfMemory};
ghost use Rattle.xls_cmd.specs.Shared.Response.{refusal_status};

use crate::shared::fault::Fault;
use std::alloc::AllocError;
use xb_span::ReadError;

/// Why a command gives no output.
#[derive(Drop)]
pub enum Refusal<'a> {
    OutOfMemory,
    /// A fault of the outside: the file can't be read.
    Unread(&'a str),
    Fault(Fault<&'a str>),
    /// The fault [`Fault::Infeasible`], whose line names what no word names and no file that is left.
    Infeasible(String),
}

impl From<AllocError> for Refusal<'_> {
    ghost use Rattle.xls_cmd.specs.declared.shared.refusal.Refusal.TheVariants.{OutOfMemory};

    ghost from_gives = { λ _ e. e ≡ OutOfMemory };

    fn from(_error: AllocError) -> Self {
        Refusal::OutOfMemory
    }
}

impl<'a> Refusal<'a> {
    /// The refusal of the text of a file, by its reader's.
    pub fn of_text(name: &'a str, error: ReadError) -> Refusal<'a>
        ensures { result ≡ text_refusal name.entry error }
    {
        match error {
            ReadError::Syntax(_) => Refusal::Fault(Fault::Text(name, error)),
            ReadError::Broken(_, _) => Refusal::Fault(Fault::Text(name, error)),
            ReadError::Over(_) => Refusal::Fault(Fault::Text(name, error)),
            ReadError::OutOfMemory => Refusal::OutOfMemory,
        }
    }
}

/// What was made, or the refusal for want of memory.
pub fn or_no_memory<'a, T>(made: Result<T, AllocError>) -> Result<T, Refusal<'a>>
    ensures { MatchResult made (λ it. result ≡ Ok it) (λ _. result ≡ Err OutOfMemory) }
{
    match made {
        Ok(it) => Ok(it),
        Err(AllocError) => Err(Refusal::OutOfMemory),
    }
}

impl Refusal<'_> {
    /// The status that the program ends with.
    pub fn status(&self) -> u8
        ensures { result ≡ refusal_status self.now }
    {
        match self {
            Refusal::OutOfMemory => 3,
            Refusal::Unread(_) => 4,
            Refusal::Fault(fault) => fault.status(),
            Refusal::Infeasible(_) => 9,
        }
    }
}
