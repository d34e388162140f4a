//! A FIFO whose registers are a row that shifts, and a count.

ghost use Rattle.std.specs.Prelude.{◌≡◌, ◌≤◌, List, [], ◌++◌, length, take, option_to_list, false};
ghost use Rattle.xb_bits.specs.Word.{Word};
ghost use Rattle.block_stage.specs.Fifo.Fifo as fifo;

use std::marker::Model;
use xb_bits::Bits;

/// A FIFO of depth `N`. Its oldest word stands in slot 0. A contract sees the list of its words, the oldest first.
#[derive(Drop)]
pub struct RowFifo<const N: usize> {
    count: usize,
    slots: [Bits; N],
}

impl<const N: usize> Model for RowFifo<N> {
    ghost Value = { List Word };

    ghost view = { λ row. take row.count row.slots };

    ghost invariant = { λ row. row.count ≤ N };
}

impl<const N: usize> RowFifo<N> {
    /// One that is empty.
    pub fn new() -> RowFifo<N>
        ensures { result ≡ [] }
    {
        RowFifo {
            count: 0,
            slots: [Bits::new(1, 0); N],
        }
    }

    /// The word that can be taken.
    pub fn valid_word(&self) -> Option<Bits>
        ensures { result ≡ fifo.next_word self.now }
    {
        if self.count == 0 {
            None
        } else {
            Some(self.slots[0])
        }
    }

    /// Whether there is room for one more.
    pub fn has_room(&self) -> bool
        ensures { result ≡ fifo.has_room N self.now }
    {
        let slots = &self.slots;
        self.count < slots.len()
    }

    /// A cycle in which the reader is ready or not, and the writer has valid a word or none: the word that is given. What was in
    /// it and what is put in is, in that order, what is given and what is in it then. Cost: the depth.
    pub fn cycle(&mut self, ready: bool, valid_data: Option<Bits>) -> Option<Bits>
        ensures given { option_to_list result ≡ fifo.given_in self.old ready }
        ensures kept { self.old ++ fifo.put_in N self.old valid_data ≡ option_to_list result ++ self.new }
        ensures fits { length self.new ≤ N }
    {
        let room = self.count < N;
        let given = if ready { self.valid_word() } else { None };
        if given.is_some() {
            self.slots.rotate_left(1);
            self.count -= 1;
        }
        if let Some(word) = valid_data {
            if room {
                self.put(word);
            }
        }
        given
    }

    /// Puts a word behind the others. Where all slots are taken it is lost.
    fn put(&mut self, word: Bits)
        ensures { self.new ≡ fifo.after_cycle N self.old false (Some word) }
    {
        if self.count < N {
            self.slots[self.count] = word;
            self.count += 1;
        }
    }
}
