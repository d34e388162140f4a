//! The logic between the registers of a pipeline, as data: a table for each gate, and how a site is handled. Any logic
//! makes a machine (`specs/Machine/Circuits.antt`); that of `pipeline_logic` makes one that keeps the laws.

ghost use Rattle.std.specs.Prelude.{◌≡◌};
ghost use Rattle.block_stage.specs.Machine.Circuits.{IsLawful};
ghost use Rattle.block_stage.specs.Machine.Logic.{turn_of, circuit_of, handled, handling_of, word_of};

use crate::machine::table::{Table2, Table3};
use xb_bits::Bits;

/// What a proc does at a site in an activation.
#[derive(Clone, Copy, PartialEq, Eq)]
pub enum SiteTurn {
    /// The site is off.
    Skip,
    Receive,
    /// It sends this word.
    Give(Bits),
}

/// What happens at a site in a clock cycle.
#[derive(Clone, Copy, PartialEq, Eq)]
pub enum Step {
    /// Nothing: the site is off, or its word was sent in an earlier cycle.
    Pass,
    /// This word was received in an earlier cycle, and is kept.
    Recall(Bits),
    /// This word is received.
    Take(Bits),
    /// This word is sent.
    Put(Bits),
    /// The activation stalls for a word.
    AwaitWord,
    /// It stalls for room for this word.
    AwaitRoom(Bits),
}

/// How a site is handled to which an activation has come.
#[derive(Clone, Copy, PartialEq, Eq)]
pub enum Handling {
    /// The activation goes past it.
    Pass,
    /// It goes past with the word that is kept.
    Recall,
    /// It is ready for a word.
    Take,
    /// Its word is valid.
    Put,
}

/// The logic of a pipeline.
#[derive(Clone, Copy, PartialEq, Eq)]
pub struct Logic {
    /// A site that is off.
    pub off: Handling,
    /// One that is to receive, and one that has.
    pub receive: Handling,
    pub received: Handling,
    /// One that is to send, and one that has.
    pub send: Handling,
    pub sent: Handling,
    /// Whether the activation of a stage may leave it, by whether there is one, and whether it stalls.
    pub leaves: Table2,
    /// Whether it may come into the next stage, by whether that holds one, and whether that moves.
    pub frees: Table2,
    /// Whether a stage past 0 holds an activation in the next cycle, by whether one comes in, whether it holds one, and
    /// whether that moves.
    pub full_next: Table3,
    /// Whether one may begin in stage 0 in the next cycle, by whether one ends its turn, whether one may begin now, and
    /// whether it moves on.
    pub turn_next: Table3,
    /// Whether a site is done in the next cycle, by whether it is, whether its word goes, and whether its stage moves.
    pub done_next: Table3,
    /// Whether a receive keeps the word that is at its port, by whether it goes, and whether one is there.
    pub keeps: Table2,
}

/// The logic that keeps the laws of pipelined hardware.
pub fn pipeline_logic() -> Logic
    ensures { IsLawful (circuit_of result) }
{
    Logic {
        off: Handling::Pass,
        receive: Handling::Take,
        received: Handling::Recall,
        send: Handling::Put,
        sent: Handling::Pass,
        leaves: Table2::of(|full, stall| full && !stall),
        frees: Table2::of(|next_full, next_moves| !next_full || next_moves),
        full_next: Table3::of(|comes, full, moves| comes || (full && !moves)),
        turn_next: Table3::of(|ends, turn, moves| ends || (turn && !moves)),
        done_next: Table3::of(|done, goes, moves| (done || goes) && !moves),
        keeps: Table2::of(|goes, _there| goes),
    }
}

impl Handling {
    /// What happens at a site that is handled so, by the word that it sends, the word that it keeps, the word that is
    /// there, and whether there is room.
    pub fn step(self, word: Bits, kept: Bits, valid_word: Option<Bits>, room: bool) -> Step
        ensures { result ≡ handled self word kept valid_word room }
    {
        match self {
            Handling::Pass => Step::Pass,
            Handling::Recall => Step::Recall(kept),
            Handling::Take => match valid_word {
                Some(there) => Step::Take(there),
                None => Step::AwaitWord,
            },
            Handling::Put => {
                if room {
                    Step::Put(word)
                } else {
                    Step::AwaitRoom(word)
                }
            }
        }
    }
}

impl SiteTurn {
    /// The word that it sends. A turn that sends none drives 0.
    pub fn word(&self) -> Bits
        ensures { result ≡ word_of (turn_of self.now) }
    {
        match self {
            SiteTurn::Skip | SiteTurn::Receive => Bits::new(1, 0),
            SiteTurn::Give(word) => *word,
        }
    }
}

impl Logic {
    /// How a site is handled, by what the proc does there, and whether the site is done.
    pub fn handling(&self, turn: &SiteTurn, done: bool) -> Handling
        ensures { result ≡ handling_of self.now (turn_of turn.now) done }
    {
        match turn {
            SiteTurn::Skip => self.off,
            SiteTurn::Receive => { if done { self.received } else { self.receive } }
            SiteTurn::Give(_word) => { if done { self.sent } else { self.send } }
        }
    }

    /// What happens at a site to which an activation has come, by what the proc does there, whether the site is done, the
    /// word that it keeps, the word that is there, and whether there is room.
    pub fn step(
        &self,
        turn: &SiteTurn,
        done: bool,
        kept: Bits,
        valid_word: Option<Bits>,
        room: bool,
    ) -> Step
        ensures { result ≡ (circuit_of self.now).step (turn_of turn.now) done kept valid_word room }
    {
        self.handling(turn, done)
            .step(turn.word(), kept, valid_word, room)
    }

    /// Whether the activation of the final stage leaves it.
    pub fn leaves(&self, full: bool, stall: bool) -> bool
        ensures { result ≡ (circuit_of self.now).leaves full stall }
    {
        self.leaves.at(full, stall)
    }

    /// Whether the activation of another stage goes on into the next one.
    pub fn moves_on(&self, full: bool, stall: bool, next_full: bool, next_moves: bool) -> bool
        ensures { result ≡ (circuit_of self.now).moves_on full stall next_full next_moves }
    {
        self.leaves.at(full, stall) && self.frees.at(next_full, next_moves)
    }
}
