ghost use Rattle.std.specs.Prelude.{◌≡◌, ◌≤◌, [], None};

use crate::asked::Asked;
use crate::files::{FILE_LIMIT, Files, LoadError};
use std::alloc::Global;
use std::io::{self, ErrorKind, Read};
use std::{fs, rt};

/// The files of the real file system. It tells nothing of what they hold.
#[derive(Drop)]
pub struct HostFiles<'a, R: rt::Files> {
    rt: &'a R,
    asked: Asked,
    faults: u64,
    taken: u64,
}

impl<'a, R: rt::Files> HostFiles<'a, R> {
    pub fn new(rt: &'a R) -> HostFiles<'a, R>
        ensures asked { ⟦<HostFiles<'a, R> as Files>⟧.asked result ≡ [] }
        ensures faults { ⟦<HostFiles<'a, R> as Files>⟧.faults result ≡ 0 }
        ensures taken { ⟦<HostFiles<'a, R> as Files>⟧.taken result ≡ 0 }
    {
        HostFiles {
            rt,
            asked: Asked::new(),
            faults: 0,
            taken: 0,
        }
    }

    /// The bytes of a file up to one past the limit.
    fn read(&self, alloc: Global, name: &str) -> io::Result<Vec<u8>> {
        let mut bytes = Vec::new(alloc);
        let most = FILE_LIMIT as u64 + 1;
        fs::open(self.rt, name)?.take(most).read_to_end(&mut bytes)?;
        Ok(bytes)
    }
}

impl<R: rt::Files> Files for HostFiles<'_, R> {
    ghost told = { λ _. None };

    ghost asked = { λ it. it.asked.names };

    ghost faults = { λ it. it.faults };

    ghost taken = { λ it. it.taken };

    fn load(&mut self, alloc: Global, name: &str) -> Result<Vec<u8>, LoadError> {
        self.asked.note(name.as_bytes());
        match self.read(alloc, name) {
            Ok(bytes) => {
                self.taken = self.taken.saturating_add(bytes.len() as u64);
                if bytes.len() > FILE_LIMIT {
                    return Err(LoadError::TooBig(FILE_LIMIT as u64 + 1));
                }
                Ok(bytes)
            }
            Err(error) if error.kind() == ErrorKind::OutOfMemory => Err(LoadError::OutOfMemory),
            Err(_) => {
                self.faults = self.faults.saturating_add(1);
                Err(LoadError::Failed)
            }
        }
    }
}
