//! Feeding a module row by row.

ghost use Rattle.std.specs.Prelude.{◌≡◌, ◌+◌, ◌++◌, ◌∷◌, ◌↔◌, [], ℕ, suc, true, List, Option, length, slice_get, IfOk, IsTrue, OnOk};
ghost use Rattle.xb_bits.specs.Word.{Word};
ghost use Rattle.vlog_tree.specs.declared.module.VModule.{VModule as AnyModule};
ghost use Rattle.vlog_tree.specs.declared.row.Drive.TheVariants as drives;
ghost use Rattle.vlog_tree.specs.declared.row.Outs.{Outs};
ghost use Rattle.vlog_tree.specs.declared.row.Row.{Row as AnyRow};
ghost use Rattle.vlog_tree.specs.Rows.{outs_of, transferred};
ghost use Rattle.vlog_tree.specs.Settled.{values_of};
ghost use Rattle.vlog_tree.specs.Signals.{channels_of};
ghost use Rattle.vlog_tree.specs.WellFormed.{CanRun};
ghost use Rattle.cycle_sim.specs.Cycles.CycleText.{one_more};
ghost use Rattle.cycle_sim.specs.Sim.{StandsAfter, IsUnchangedBy};
ghost use Rattle.xls_gen.specs.Feed.Feeding.{Feeds, feeding_drives, feeding_row, is_feedable, takes_words};
ghost use Rattle.xls_gen.specs.Feed.Inner.Standing.{HasFed, IsAtRest};

use crate::feed::ports::idle_drives;
use cycle_sim::Sim;
use sqlite_items::{Items, at};
use std::alloc::{AllocError, Global};
use vlog_tree::{Drive, Row, Shown, VModule};
use xb_bits::Bits;

/// The words that a module gives at the channel of index `output` while it is fed with words at the channel of index `input`, for
/// so many rows behind one that resets. Every output is ready in each row, and nothing is offered at the other inputs.
/// [`can_be_fed`](crate::feed::can_be_fed) tests the channels and the words.
///
/// Each row takes the time that the simulator takes for a cycle, and no memory but that of a word that is given. Behind a row in which
/// no word went through and no register changed all further rows are the same: they take no time.
pub fn feed(
    alloc: Global,
    design: VModule,
    input: usize,
    output: usize,
    words: &[Bits],
    rows: u64,
) -> Result<Items<Bits>, AllocError>
    requires runs { CanRun design }
    requires fits { is_feedable design input output words.now ≡ true }
    ensures { IfOk result (λ given. Feeds design input output words.now rows given) }
{
    let mut feeder = Feeder::new(alloc, design)?;
    feeder.reset(input, words);
    feed_rows(&mut feeder, input, output, words, rows)?;
    Ok(feeder.given)
}

/// So many rows behind the one that resets. It ends at the first one behind which no row changes anything.
fn feed_rows(
    feeder: &mut Feeder,
    input: usize,
    output: usize,
    words: &[Bits],
    rows: u64,
) -> Result<(), AllocError>
    requires fits { is_feedable feeder.old.sim.design input output words.now ≡ true }
    requires first { HasFed feeder.old.sim.design input output words.now feeder.old 1 }
    ensures { OnOk result (HasFed feeder.old.sim.design input output words.now feeder.new (suc rows)) }
{
    'rows: for _row in 0..rows {
        if feeder.cycle(input, output, words)? {
            return Ok(());
        }
    }
    Ok(())
}

/// A module that is fed.
#[derive(Drop)]
pub struct Feeder {
    pub sim: Sim,
    /// What the outside did in the last row.
    pub row: Row,
    /// How many words the module has taken since the reset.
    pub taken: usize,
    /// The words that it has given since then.
    pub given: Items<Bits>,
}

impl Feeder {
    /// A module before its first row.
    fn new(alloc: Global, design: VModule) -> Result<Feeder, AllocError>
        requires { CanRun design }
        ensures { IfOk result (λ feeder. (input output : ℕ) (words : List Word) → HasFed design input output words feeder 0) }
    {
        let channels = idle_drives(alloc, &design)?;
        let sim = Sim::new(alloc, design)?;
        Ok(Feeder {
            sim,
            row: Row {
                reset: true,
                channels,
            },
            taken: 0,
            given: Items::new(alloc),
        })
    }

    /// The row that resets. Nothing goes through in it.
    fn reset(&mut self, input: usize, words: &[Bits])
        requires fits { takes_words (slice_get (channels_of self.old.sim.design) input) words.now ≡ true }
        requires first { (output : ℕ) × HasFed self.old.sim.design input output words.now self.old 0 }
        ensures { (m : AnyModule) (output : ℕ) → HasFed m input output words.now self.old 0 → HasFed m input output words.now self.new 1 }
    {
        self.drive(input, words, true);
    }

    /// A row behind it, and whether it is known that no further row changes anything.
    fn cycle(&mut self, input: usize, output: usize, words: &[Bits]) -> Result<bool, AllocError>
        requires fits { is_feedable self.old.sim.design input output words.now ≡ true }
        requires fed { (n : ℕ) × HasFed self.old.sim.design input output words.now self.old (suc n) }
        ensures fed { IfOk result (λ rests. (m : AnyModule) (n : ℕ) → HasFed m input output words.now self.old (suc n) → HasFed m input output words.now self.new (suc (suc n))) }
        ensures rests { IfOk result (λ rests. IsTrue rests → IsAtRest input output words.now self.new) }
    {
        let taken = self.taken;
        let given = self.given.len();
        let still = self.drive(input, words, false);
        self.taken = taken_behind(self.taken, words, self.sim.shown(input));
        push_given(&mut self.given, self.sim.shown(output))?;
        Ok(still && self.has_counts(taken, given))
    }

    /// Whether so many words are taken, and so many given.
    fn has_counts(&self, taken: usize, given: usize) -> bool
        ensures { IsTrue result ↔ ((self.now.taken ≡ taken) × (length self.now.given ≡ given)) }
    {
        self.taken == taken && self.given.len() == given
    }

    /// One row, in which the next word is offered, and whether it changed no register.
    fn drive(&mut self, input: usize, words: &[Bits], reset: bool) -> bool
        requires fits { takes_words (slice_get (channels_of self.old.sim.design) input) words.now ≡ true }
        requires drives { (offered : Option Word) × (self.old.row.channels ≡ feeding_drives input offered (channels_of self.old.sim.design)) }
        ensures design { self.new.sim.design ≡ self.old.sim.design }
        ensures row { self.new.row ≡ feeding_row self.old.sim.design input reset (slice_get words.now self.old.taken) }
        ensures stands { (rows : List AnyRow) (outs : List Outs) → StandsAfter self.old.sim rows outs →
            StandsAfter self.new.sim (rows ++ self.new.row ∷ []) (outs ++ outs_of self.new.sim.design (values_of self.new.sim.words) ∷ []) }
        ensures still { IsTrue result → IsUnchangedBy self.new.sim self.new.row }
        ensures taken { self.new.taken ≡ self.old.taken }
        ensures given { self.new.given ≡ self.old.given }
    {
        let offered = next_word(words, self.taken);
        self.row.reset = reset;
        self.row.channels.set(input, Drive::Offer(offered));
        self.sim.cycle_is_still(&self.row)
    }
}

/// The first word that isn't taken, where so many are.
fn next_word(words: &[Bits], taken: usize) -> Option<Bits>
    ensures { result ≡ slice_get words.now taken }
{
    at(words, taken).copied()
}

/// How many words are taken behind a row without reset, by what the module shows at the input.
fn taken_behind(taken: usize, words: &[Bits], shown: Shown) -> usize
    ensures { result ≡ taken + length (one_more (transferred (drives.Offer (slice_get words.now taken)) shown) []) }
{
    match shown {
        Shown::Input { ready } => if ready {
            behind_next(taken, words)
        } else {
            taken
        },
        Shown::Output { word: _, valid: _ } => taken,
    }
}

/// How many words are taken once the next one is, if there is one.
fn behind_next(taken: usize, words: &[Bits]) -> usize
    ensures { result ≡ taken + length (one_more (slice_get words.now taken) []) }
{
    if taken < words.len() {
        taken + 1
    } else {
        taken
    }
}

/// Appends the word that goes out in a row without reset, by what the module shows at the output, which is ready.
fn push_given(given: &mut Items<Bits>, shown: Shown) -> Result<(), AllocError>
    ensures { OnOk result (given.new ≡ one_more (transferred (drives.Ready true) shown) given.old) }
{
    match shown {
        Shown::Output { word, valid } => if valid { given.push(word) } else { Ok(()) },
        Shown::Input { ready: _ } => Ok(()),
    }
}
