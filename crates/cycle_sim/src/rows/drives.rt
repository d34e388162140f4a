//! What the outside does at each channel of a row that is being read.

ghost use Rattle.std.specs.Prelude.{◌≡◌, ◌++◌, ◌∷◌, [], slice_set, OnOk};

use sqlite_items::Items;
use std::alloc::{AllocError, Global};
use std::marker::Model;
use vlog_tree::Drive;

/// One drive for each channel. Contracts see their list.
#[derive(Drop)]
pub struct Drives {
    list: Vec<Drive>,
}

impl Model for Drives {
    ghost use Rattle.std.specs.Prelude.{List};
    ghost use Rattle.vlog_tree.specs.declared.row.Drive.{Drive};

    ghost Value = { List Drive };

    ghost view = { λ d. d.list.items };
}

impl Drives {
    pub fn new(alloc: Global) -> Drives
        ensures { result ≡ [] }
    {
        Drives {
            list: Vec::new(alloc),
        }
    }

    pub fn push(&mut self, drive: Drive) -> Result<(), AllocError>
        ensures { OnOk result (self.new ≡ self.old ++ drive ∷ []) }
    {
        match drive {
            Drive::Offer(word) => self.list.push(Drive::Offer(word))?,
            Drive::Ready(ready) => self.list.push(Drive::Ready(ready))?,
        }
        Ok(())
    }

    pub fn set(&mut self, channel: usize, drive: Drive)
        ensures { self.new ≡ slice_set self.old channel drive }
    {
        if channel < self.list.len() {
            self.list[channel] = drive;
        }
    }

    pub fn into_items(self) -> Items<Drive>
        ensures { result ≡ self }
    {
        Items::from_vec(self.list)
    }
}
