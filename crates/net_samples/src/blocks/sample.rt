ghost use Rattle.std.specs.Prelude.{◌≡◌, slice_get, unwrap_or, length};
ghost use Rattle.xb_bits.specs.Word.{Word};
ghost use Rattle.block_stage.specs.Machine.Pipeline.{count_before};
ghost use Rattle.net_samples.specs.Blocks.Samples.{byte, more_than, turn_by, turn_at, next_by, stage_at, chan_of};
ghost use Rattle.net_samples.specs.Blocks.Shows.{got_behind};

use block_stage::machine::{SiteTurn, Step};
use xb_bits::Bits;

/// A word of 8 bits.
pub fn word(value: u128) -> Bits
    ensures { result ≡ byte value }
{
    Bits::new(8, value % 256)
}

/// So much more than a word, modulo 256.
fn sum(word: Bits, more: u128) -> Bits
    ensures { result ≡ more_than word more }
{
    self::word(word.value() % 256 + more % 256)
}

/// An activation: the state in which it began, and the last word that it received.
#[derive(Clone, Copy)]
pub struct StageEntry {
    pub state: Bits,
    pub got: Option<Bits>,
}

/// What a site does.
#[derive(Clone, Copy)]
pub enum Action {
    Receive,
    /// Sends the state and so much more.
    SendState(u128),
    /// Sends the last word received and so much more.
    SendWord(u128),
    /// Receives where the state is odd, and else is off.
    ReceiveIfOdd,
}

/// A site: its channel, its stage, and what it does.
#[derive(Clone, Copy)]
pub struct SampleSite {
    pub chan: usize,
    pub stage: usize,
    pub action: Action,
}

/// The state after an activation.
#[derive(Clone, Copy)]
pub enum Next {
    /// So much more than the state.
    Add(u128),
    /// The last word received.
    Word,
}

/// A pipeline of at most four sites, stages and channels.
#[derive(Clone, Copy)]
pub struct Sample<'a> {
    pub sites: &'a [SampleSite],
    pub stages: usize,
    pub last: usize,
    pub next: Next,
}

impl StageEntry {
    /// The same activation behind a site where this happens.
    pub fn behind(&self, step: &Step) -> StageEntry
        ensures state { result.state ≡ self.now.state }
        ensures got { result.got ≡ got_behind step.now self.now.got }
    {
        match step {
            Step::Recall(word) | Step::Take(word) => StageEntry {
                state: self.state,
                got: Some(*word),
            },
            Step::Pass | Step::Put(_) | Step::AwaitWord | Step::AwaitRoom(_) => *self,
        }
    }

    /// The last word received, or 0.
    fn last(&self) -> Bits
        ensures { result ≡ unwrap_or self.now.got (byte 0) }
    {
        match self.got {
            Some(word) => word,
            None => word(0),
        }
    }
}

impl Sample<'_> {
    /// The index of the first site of a stage: how many sites are in earlier stages.
    pub fn first(&self, stage: usize) -> usize
        ensures { result ≡ count_before (λ i. stage_at (slice_get self.now.sites.now i)) stage (length self.now.sites.now) }
    {
        let mut count: usize = 0;
        let mut place: usize = 0;
        while place < self.sites.len() {
            if self.stage(place) < stage {
                count += 1;
            }
            place += 1;
        }
        count
    }

    /// The stage of the site with an index.
    pub fn stage(&self, place: usize) -> usize
        ensures { result ≡ stage_at (slice_get self.now.sites.now place) }
    {
        match self.sites.get(place) {
            Some(site) => site.stage,
            None => 0,
        }
    }

    /// What an activation does at the site with an index.
    pub fn turn(&self, stage_entry: &StageEntry, place: usize) -> SiteTurn
        ensures { result ≡ turn_at (slice_get self.now.sites.now place) stage_entry.now.state stage_entry.now.got }
    {
        match self.sites.get(place) {
            Some(site) => site.action.turn(stage_entry),
            None => SiteTurn::Skip,
        }
    }

    /// The channel of the site with an index.
    pub fn chan(&self, place: usize) -> usize
        ensures { result ≡ chan_of (slice_get self.now.sites.now place) }
    {
        match self.sites.get(place) {
            Some(site) => site.chan,
            None => 0,
        }
    }
}

impl Action {
    /// What an activation does at a site of this kind.
    pub fn turn(&self, stage_entry: &StageEntry) -> SiteTurn
        ensures { result ≡ turn_by self.now stage_entry.now.state stage_entry.now.got }
    {
        match self {
            Action::Receive => SiteTurn::Receive,
            Action::SendState(more) => SiteTurn::Give(sum(stage_entry.state, *more)),
            Action::SendWord(more) => SiteTurn::Give(sum(stage_entry.last(), *more)),
            Action::ReceiveIfOdd => {
                if stage_entry.state.value() % 2 == 1 {
                    SiteTurn::Receive
                } else {
                    SiteTurn::Skip
                }
            }
        }
    }
}

impl Next {
    /// The state after this activation.
    pub fn state(&self, stage_entry: &StageEntry) -> Bits
        ensures { result ≡ next_by self.now stage_entry.now.state stage_entry.now.got }
    {
        match self {
            Next::Add(more) => sum(stage_entry.state, *more),
            Next::Word => stage_entry.last(),
        }
    }
}
