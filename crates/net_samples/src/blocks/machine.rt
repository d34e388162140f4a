ghost use Rattle.std.specs.Prelude.{◌≡◌, ◌||◌, ◌+◌, ◌-◌, ◌≤◌, ◌<◌, ℕ, ◌++◌, suc, Bool, false, true, None, Some, List, [], length, get_or, slice_set, slice_get, map, is_some, unwrap_or, if◌then◌else◌};
ghost use Rattle.xb_bits.specs.Word.{Word};
ghost use Rattle.xb_value.specs.declared.value.Value.{Value};
ghost use Rattle.net_core.specs.declared.net.Site.{Site};
ghost use Rattle.net_core.specs.declared.event.Event.TheVariants.{Recv, Send};
ghost use Rattle.net_core.specs.Behavior.{chan_at};
ghost use Rattle.net_core.specs.declared.event.Event.{Event};
ghost use Rattle.block_stage.specs.Machine.Cycle as cycle;
ghost use Rattle.block_stage.specs.Machine.Cycle.{Registers, Takes, Gives, opened, brought, stopped, behind_transfer, walk_by, moves_through, asserted_through};
ghost use Rattle.block_stage.specs.Machine.Circuits.{stage_by, moves_by, cycle_by, asserts_by};
ghost use Rattle.block_stage.specs.Machine.Logic.{circuit_of, at2};
ghost use Rattle.net_samples.specs.Blocks.Samples.{bits_of, last_word, site_of, behavior_of, pipeline_of, ports_of, FitsMachine};
ghost use Rattle.net_samples.specs.Blocks.Shows.{no_word, no_stage_entry, first_some, site_step, ShowsStageEntry, ShowsAsserted, ShowsWalk, ShowsMachine, Keeps};

use crate::blocks::sample::{Sample, StageEntry};
use block_stage::machine::{Logic, Step};
use xb_bits::Bits;

/// What stands at the ports in a cycle, by channel.
#[derive(Clone, Copy)]
pub struct Ports {
    pub valid_word: [Option<Bits>; 4],
    pub room: [bool; 4],
}

/// What a pipeline asserts in a cycle, by channel: whether it is ready for a word, and its valid word.
#[derive(Clone, Copy)]
pub struct Asserted {
    pub ready: [bool; 4],
    pub words: [Option<Bits>; 4],
}

/// How far an activation comes in a stage in a cycle: the words that it takes, which sites go, whether it stalls, and
/// what it asserts.
#[derive(Clone, Copy)]
struct Walk {
    stage_entry: StageEntry,
    went: [bool; 4],
    took: [Option<Bits>; 4],
    stall: bool,
    asserted: Asserted,
}

/// The registers of a sample's pipeline.
#[derive(Clone, Copy)]
pub struct Machine {
    pub full: [bool; 4],
    pub done: [bool; 4],
    state: Bits,
    stage_regs: [StageEntry; 4],
    kept: [Bits; 4],
}

/// The flag of a number, or no.
fn flag(flags: &[bool], i: usize) -> bool
    ensures { result ≡ get_or flags.now i false }
{
    match flags.get(i) {
        Some(flag) => *flag,
        None => false,
    }
}

fn set(flags: &mut [bool], i: usize)
    ensures { flags.new ≡ slice_set flags.old i true }
{
    if i < flags.len() {
        flags[i] = true;
    }
}

fn valid_word_at(offers: &[Option<Bits>], i: usize) -> Option<Bits>
    ensures { result ≡ get_or offers.now i None }
{
    match offers.get(i) {
        Some(valid_word) => *valid_word,
        None => None,
    }
}

fn set_word(words: &mut [Option<Bits>], i: usize, new: Bits)
    ensures { words.new ≡ slice_set words.old i (Some new) }
{
    if i < words.len() {
        words[i] = Some(new);
    }
}

fn kept_at(kept: &[Bits], i: usize) -> Bits
    ensures { result ≡ get_or kept.now i no_word }
{
    match kept.get(i) {
        Some(word) => *word,
        None => Bits::new(1, 0),
    }
}

fn stage_entry_at(stage_regs: &[StageEntry], i: usize) -> StageEntry
    ensures { result ≡ get_or stage_regs.now i no_stage_entry }
{
    match stage_regs.get(i) {
        Some(stage_entry) => *stage_entry,
        None => StageEntry {
            state: Bits::new(1, 0),
            got: None,
        },
    }
}

/// Whether the flag of a number is set in one or the other.
fn any_flag(flags: &[bool], others: &[bool], i: usize) -> bool
    ensures { result ≡ (get_or flags.now i false || get_or others.now i false) }
{
    flag(flags, i) || flag(others, i)
}

/// The one, or the other where there is none.
fn either(one: Option<Bits>, other: Option<Bits>) -> Option<Bits>
    ensures { result ≡ first_some one other }
{
    match one {
        Some(word) => Some(word),
        None => other,
    }
}

/// The word that a site keeps, by the one that it has, the one that it receives, and the one that is there.
fn keep(logic: &Logic, kept: Bits, took: Option<Bits>, valid_word: Option<Bits>) -> Bits
    ensures { result ≡ (if at2 logic.now.keeps (is_some took) (is_some valid_word) then unwrap_or (first_some took valid_word) kept else kept) }
{
    if !logic.keeps.at(took.is_some(), valid_word.is_some()) {
        return kept;
    }
    match either(took, valid_word) {
        Some(word) => word,
        None => kept,
    }
}

impl Asserted {
    /// Nothing is asserted.
    pub fn nothing() -> Asserted
        ensures { (sites : List Site) → ShowsAsserted sites result [] }
    {
        Asserted {
            ready: [false; 4],
            words: [None; 4],
        }
    }

    /// This, and what is asserted further on.
    fn and(self, other: Asserted) -> Asserted
        ensures { (sites : List Site) (es fs : List Event) → ShowsAsserted sites self es → ShowsAsserted sites other fs → ShowsAsserted sites result (es ++ fs) }
    {
        Asserted {
            ready: [
                any_flag(&self.ready, &other.ready, 0),
                any_flag(&self.ready, &other.ready, 1),
                any_flag(&self.ready, &other.ready, 2),
                any_flag(&self.ready, &other.ready, 3),
            ],
            words: [
                either(
                    valid_word_at(&self.words, 0),
                    valid_word_at(&other.words, 0),
                ),
                either(
                    valid_word_at(&self.words, 1),
                    valid_word_at(&other.words, 1),
                ),
                either(
                    valid_word_at(&self.words, 2),
                    valid_word_at(&other.words, 2),
                ),
                either(
                    valid_word_at(&self.words, 3),
                    valid_word_at(&other.words, 3),
                ),
            ],
        }
    }
}

impl Walk {
    fn stopped(stage_entry: StageEntry) -> Walk
        ensures stage_entry { result.stage_entry ≡ stage_entry }
        ensures shows { (sites : List Site) (i : ℕ) (got : List Word) → stage_entry.got ≡ last_word got → ShowsWalk sites result (stopped i got None) }
    {
        Walk {
            stage_entry,
            went: [false; 4],
            took: [None; 4],
            stall: false,
            asserted: Asserted::nothing(),
        }
    }

    /// It is ready for a word, and stalls.
    fn awaiting_word(stage_entry: StageEntry, chan: usize) -> Walk
        ensures stage_entry { result.stage_entry ≡ stage_entry }
        ensures shows { (sites : List Site) (i : ℕ) (got : List Word) → chan ≡ chan_at sites i → stage_entry.got ≡ last_word got → ShowsWalk sites result (stopped i got (Some (Recv i))) }
    {
        let mut walk = Walk::stopped(stage_entry);
        walk.stall = true;
        set(&mut walk.asserted.ready, chan);
        walk
    }

    /// It has this word valid, and stalls.
    fn awaiting_room(stage_entry: StageEntry, chan: usize, word: Bits) -> Walk
        ensures stage_entry { result.stage_entry ≡ stage_entry }
        ensures shows { (sites : List Site) (i : ℕ) (got : List Word) → chan ≡ chan_at sites i → stage_entry.got ≡ last_word got → ShowsWalk sites result (stopped i got (Some (Send i word))) }
    {
        let mut walk = Walk::stopped(stage_entry);
        walk.stall = true;
        set_word(&mut walk.asserted.words, chan, word);
        walk
    }

    /// The same, behind a word that is received at the site with this index.
    fn take(&mut self, place: usize, chan: usize, word: Bits)
        ensures stage_entry { self.new.stage_entry ≡ self.old.stage_entry }
        ensures shows { (sites : List Site) (of : cycle.Walk) → chan ≡ chan_at sites place → ShowsWalk sites self.old of → ShowsWalk sites self.new (behind_transfer (Takes place word) of) }
    {
        set(&mut self.went, place);
        set_word(&mut self.took, place, word);
        set(&mut self.asserted.ready, chan);
    }

    /// The same, behind one that is sent.
    fn give(&mut self, place: usize, chan: usize, word: Bits)
        ensures stage_entry { self.new.stage_entry ≡ self.old.stage_entry }
        ensures shows { (sites : List Site) (of : cycle.Walk) → chan ≡ chan_at sites place → ShowsWalk sites self.old of → ShowsWalk sites self.new (behind_transfer (Gives place word) of) }
    {
        set(&mut self.went, place);
        set_word(&mut self.asserted.words, chan, word);
    }
}

impl Machine {
    /// After reset, in this state: stage 0 has the turn, and nothing else is in use.
    pub fn reset(state: Bits) -> Machine
        ensures { (sample : Sample) → FitsMachine sample → ShowsMachine sample result (opened (pipeline_of sample state)) }
    {
        let stage_entry = StageEntry { state, got: None };
        Machine {
            full: [true, false, false, false],
            done: [false; 4],
            state,
            stage_regs: [stage_entry; 4],
            kept: [Bits::new(1, 0); 4],
        }
    }

    /// One clock cycle by this logic: what it asserts.
    pub fn cycle(&mut self, logic: &Logic, sample: &Sample, ports: &Ports) -> Asserted
        ensures registers { (opening : Word) (c : Registers) → FitsMachine sample.now → ShowsMachine sample.now self.old c → ShowsMachine sample.now self.new (cycle_by (circuit_of logic.now) (pipeline_of sample.now opening) c (ports_of ports.now)) }
        ensures asserted { (opening : Word) (c : Registers) → FitsMachine sample.now → ShowsMachine sample.now self.old c → ShowsAsserted (map site_of sample.now.sites.now) result (asserts_by (circuit_of logic.now) (pipeline_of sample.now opening) c (ports_of ports.now)) }
    {
        let asserted = self.asserted(logic, sample, ports);
        let next = Machine {
            full: self.next_full(logic, sample, ports),
            done: self.next_done(logic, sample, ports),
            state: self.next_state(logic, sample, ports),
            stage_regs: self.next_stage_regs(logic, sample, ports),
            kept: self.next_kept(logic, sample, ports),
        };
        *self = next;
        asserted
    }

    /// What happens at a site to which an activation has come.
    fn step(
        &self,
        logic: &Logic,
        sample: &Sample,
        ports: &Ports,
        stage_entry: &StageEntry,
        place: usize,
    ) -> Step
        ensures { result ≡ site_step (circuit_of logic.now) sample.now ports.now stage_entry.now (get_or self.now.done place false) (get_or self.now.kept place no_word) place }
    {
        let turn = sample.turn(stage_entry, place);
        let chan = sample.chan(place);
        logic.step(
            &turn,
            flag(&self.done, place),
            kept_at(&self.kept, place),
            valid_word_at(&ports.valid_word, chan),
            flag(&ports.room, chan),
        )
    }

    /// Along so many sites from an index on.
    fn walk(
        &self,
        logic: &Logic,
        sample: &Sample,
        ports: &Ports,
        stage_entry: &StageEntry,
        place: usize,
        left: usize,
    ) -> Walk
        requires { place + left ≤ length sample.now.sites.now }
        ensures state { result.stage_entry.state ≡ stage_entry.now.state }
        ensures shows { (done : ℕ → Bool) (kept : ℕ → Word) (s : Value) (got : List Word) → Keeps sample.now self.now done kept → stage_entry.now.state ≡ bits_of s → stage_entry.now.got ≡ last_word got → ShowsWalk (map site_of sample.now.sites.now) result (walk_by (circuit_of logic.now) (behavior_of sample.now) done kept (ports_of ports.now) s got place left) }
    {
        if left == 0 {
            return Walk::stopped(*stage_entry);
        }
        let chan = sample.chan(place);
        let step = self.step(logic, sample, ports, stage_entry, place);
        let then = stage_entry.behind(&step);
        let mut walk = self.walk(logic, sample, ports, &then, place + 1, left - 1);
        match step {
            Step::Pass => {}
            Step::Recall(_word) => {}
            Step::Take(word) => walk.take(place, chan, word),
            Step::Put(word) => walk.give(place, chan, word),
            Step::AwaitWord => walk = Walk::awaiting_word(*stage_entry, chan),
            Step::AwaitRoom(word) => walk = Walk::awaiting_room(*stage_entry, chan, word),
        }
        walk
    }

    /// What came into a stage.
    fn brought(&self, stage: usize) -> StageEntry
        ensures { (sample : Sample) (c : Registers) → ShowsMachine sample self.now c → stage < sample.stages → ShowsStageEntry result (brought c stage) }
    {
        if stage == 0 {
            StageEntry {
                state: self.state,
                got: None,
            }
        } else {
            stage_entry_at(&self.stage_regs, stage)
        }
    }

    /// What a stage does.
    fn in_stage(&self, logic: &Logic, sample: &Sample, ports: &Ports, stage: usize) -> Walk
        ensures state { (c : Registers) → ShowsMachine sample.now self.now c → stage < sample.now.stages → result.stage_entry.state ≡ bits_of (brought c stage).state }
        ensures shows { (opening : Word) (c : Registers) → FitsMachine sample.now → ShowsMachine sample.now self.now c → stage < sample.now.stages → ShowsWalk (map site_of sample.now.sites.now) result (stage_by (circuit_of logic.now) (pipeline_of sample.now opening) c (ports_of ports.now) stage) }
    {
        let stage_entry = self.brought(stage);
        if stage >= 4 || !flag(&self.full, stage) {
            return Walk::stopped(StageEntry {
                state: stage_entry.state,
                got: None,
            });
        }
        let from = sample.first(stage);
        let until = sample.first(stage + 1);
        self.walk(
            logic,
            sample,
            ports,
            &stage_entry,
            from,
            until.saturating_sub(from),
        )
    }

    /// Whether a stage's activation goes on, where so many stages stand behind the stage.
    fn moves_before(
        &self,
        logic: &Logic,
        sample: &Sample,
        ports: &Ports,
        behind: usize,
        stage: usize,
    ) -> bool
        requires { stage + behind < 4 }
        ensures { (opening : Word) (c : Registers) → FitsMachine sample.now → ShowsMachine sample.now self.now c → stage + behind < sample.now.stages → result ≡ moves_through (circuit_of logic.now) c.full (stage_by (circuit_of logic.now) (pipeline_of sample.now opening) c (ports_of ports.now)) behind stage }
    {
        let full = flag(&self.full, stage);
        let stall = self.in_stage(logic, sample, ports, stage).stall;
        if behind == 0 {
            return logic.leaves(full, stall);
        }
        let next_full = flag(&self.full, stage + 1);
        let next_moves = self.moves_before(logic, sample, ports, behind - 1, stage + 1);
        logic.moves_on(full, stall, next_full, next_moves)
    }

    /// Whether a stage's activation goes on.
    fn moves(&self, logic: &Logic, sample: &Sample, ports: &Ports, stage: usize) -> bool
        ensures { (opening : Word) (c : Registers) → FitsMachine sample.now → ShowsMachine sample.now self.now c → stage < sample.now.stages → result ≡ moves_by (circuit_of logic.now) (pipeline_of sample.now opening) c (ports_of ports.now) stage }
    {
        if stage < sample.stages && sample.stages <= 4 {
            self.moves_before(logic, sample, ports, sample.stages - 1 - stage, stage)
        } else {
            false
        }
    }

    /// What so many stages assert, from one on.
    fn asserted_from(
        &self,
        logic: &Logic,
        sample: &Sample,
        ports: &Ports,
        stage: usize,
        left: usize,
    ) -> Asserted
        requires { stage + left ≤ 4 }
        ensures { (opening : Word) (c : Registers) → FitsMachine sample.now → ShowsMachine sample.now self.now c → stage + left ≤ sample.now.stages → ShowsAsserted (map site_of sample.now.sites.now) result (asserted_through (stage_by (circuit_of logic.now) (pipeline_of sample.now opening) c (ports_of ports.now)) stage left) }
    {
        if left == 0 {
            return Asserted::nothing();
        }
        let here = self.in_stage(logic, sample, ports, stage).asserted;
        here.and(self.asserted_from(logic, sample, ports, stage + 1, left - 1))
    }

    /// What all stages assert.
    fn asserted(&self, logic: &Logic, sample: &Sample, ports: &Ports) -> Asserted
        ensures { (opening : Word) (c : Registers) → FitsMachine sample.now → ShowsMachine sample.now self.now c → ShowsAsserted (map site_of sample.now.sites.now) result (asserts_by (circuit_of logic.now) (pipeline_of sample.now opening) c (ports_of ports.now)) }
    {
        if sample.stages <= 4 {
            self.asserted_from(logic, sample, ports, 0, sample.stages)
        } else {
            Asserted::nothing()
        }
    }

    /// The state in which the next activation begins.
    fn next_state(&self, logic: &Logic, sample: &Sample, ports: &Ports) -> Bits
        ensures { (opening : Word) (c : Registers) → FitsMachine sample.now → ShowsMachine sample.now self.now c → result ≡ bits_of (cycle_by (circuit_of logic.now) (pipeline_of sample.now opening) c (ports_of ports.now)).state }
    {
        if self.moves(logic, sample, ports, sample.last) {
            let walk = self.in_stage(logic, sample, ports, sample.last);
            sample.next.state(&walk.stage_entry)
        } else {
            self.state
        }
    }

    /// Whether a stage past 0 holds an activation in the next cycle.
    fn stage_full(&self, logic: &Logic, sample: &Sample, ports: &Ports, stage: usize) -> bool
        requires { 0 < stage }
        ensures { (opening : Word) (c : Registers) → FitsMachine sample.now → ShowsMachine sample.now self.now c → stage < sample.now.stages → result ≡ (cycle_by (circuit_of logic.now) (pipeline_of sample.now opening) c (ports_of ports.now)).full stage }
    {
        let comes = self.moves(logic, sample, ports, stage - 1);
        let full = flag(&self.full, stage);
        let moves = self.moves(logic, sample, ports, stage);
        stage < sample.stages && logic.full_next.at(comes, full, moves)
    }

    /// Whether an activation may begin in the next cycle.
    fn next_turn(&self, logic: &Logic, sample: &Sample, ports: &Ports) -> bool
        ensures { (opening : Word) (c : Registers) → FitsMachine sample.now → ShowsMachine sample.now self.now c → result ≡ (cycle_by (circuit_of logic.now) (pipeline_of sample.now opening) c (ports_of ports.now)).full 0 }
    {
        let ends = self.moves(logic, sample, ports, sample.last);
        let turn = flag(&self.full, 0);
        let moves = self.moves(logic, sample, ports, 0);
        logic.turn_next.at(ends, turn, moves)
    }

    /// What comes into a stage past 0, or stays there.
    fn comes_in(&self, logic: &Logic, sample: &Sample, ports: &Ports, stage: usize) -> StageEntry
        requires { 0 < stage }
        ensures { (opening : Word) (c : Registers) → FitsMachine sample.now → ShowsMachine sample.now self.now c → stage < sample.now.stages → ShowsStageEntry result ((cycle_by (circuit_of logic.now) (pipeline_of sample.now opening) c (ports_of ports.now)).stage_regs stage) }
    {
        if self.moves(logic, sample, ports, stage - 1) {
            self.in_stage(logic, sample, ports, stage - 1).stage_entry
        } else {
            stage_entry_at(&self.stage_regs, stage)
        }
    }

    /// Whether a site is done in the next cycle.
    fn site_done(&self, logic: &Logic, sample: &Sample, ports: &Ports, place: usize) -> bool
        ensures { (opening : Word) (c : Registers) → FitsMachine sample.now → ShowsMachine sample.now self.now c → place < length sample.now.sites.now → result ≡ (cycle_by (circuit_of logic.now) (pipeline_of sample.now opening) c (ports_of ports.now)).done place }
    {
        let stage = sample.stage(place);
        let went = flag(&self.in_stage(logic, sample, ports, stage).went, place);
        let moves = self.moves(logic, sample, ports, stage);
        logic.done_next.at(flag(&self.done, place), went, moves)
    }

    /// The word that a site keeps in the next cycle.
    fn site_kept(&self, logic: &Logic, sample: &Sample, ports: &Ports, place: usize) -> Bits
        ensures { (opening : Word) (c : Registers) → FitsMachine sample.now → ShowsMachine sample.now self.now c → place < length sample.now.sites.now → result ≡ (cycle_by (circuit_of logic.now) (pipeline_of sample.now opening) c (ports_of ports.now)).kept place }
    {
        let kept = kept_at(&self.kept, place);
        let valid_word = valid_word_at(&ports.valid_word, sample.chan(place));
        let walk = self.in_stage(logic, sample, ports, sample.stage(place));
        keep(logic, kept, valid_word_at(&walk.took, place), valid_word)
    }

    fn next_full(&self, logic: &Logic, sample: &Sample, ports: &Ports) -> [bool; 4]
        ensures { (opening : Word) (c : Registers) → FitsMachine sample.now → ShowsMachine sample.now self.now c → (j : ℕ) → j < sample.now.stages → get_or result j false ≡ (cycle_by (circuit_of logic.now) (pipeline_of sample.now opening) c (ports_of ports.now)).full j }
    {
        [
            self.next_turn(logic, sample, ports),
            self.stage_full(logic, sample, ports, 1),
            self.stage_full(logic, sample, ports, 2),
            self.stage_full(logic, sample, ports, 3),
        ]
    }

    fn next_stage_regs(&self, logic: &Logic, sample: &Sample, ports: &Ports) -> [StageEntry; 4]
        ensures { (opening : Word) (c : Registers) → FitsMachine sample.now → ShowsMachine sample.now self.now c → (j : ℕ) → 0 < j → j < sample.now.stages → ShowsStageEntry (get_or result j no_stage_entry) ((cycle_by (circuit_of logic.now) (pipeline_of sample.now opening) c (ports_of ports.now)).stage_regs j) }
    {
        [
            stage_entry_at(&self.stage_regs, 0),
            self.comes_in(logic, sample, ports, 1),
            self.comes_in(logic, sample, ports, 2),
            self.comes_in(logic, sample, ports, 3),
        ]
    }

    fn next_done(&self, logic: &Logic, sample: &Sample, ports: &Ports) -> [bool; 4]
        ensures { (opening : Word) (c : Registers) → FitsMachine sample.now → ShowsMachine sample.now self.now c → (i : ℕ) → i < length sample.now.sites.now → get_or result i false ≡ (cycle_by (circuit_of logic.now) (pipeline_of sample.now opening) c (ports_of ports.now)).done i }
    {
        [
            self.site_done(logic, sample, ports, 0),
            self.site_done(logic, sample, ports, 1),
            self.site_done(logic, sample, ports, 2),
            self.site_done(logic, sample, ports, 3),
        ]
    }

    fn next_kept(&self, logic: &Logic, sample: &Sample, ports: &Ports) -> [Bits; 4]
        ensures { (opening : Word) (c : Registers) → FitsMachine sample.now → ShowsMachine sample.now self.now c → (i : ℕ) → i < length sample.now.sites.now → get_or result i no_word ≡ (cycle_by (circuit_of logic.now) (pipeline_of sample.now opening) c (ports_of ports.now)).kept i }
    {
        [
            self.site_kept(logic, sample, ports, 0),
            self.site_kept(logic, sample, ports, 1),
            self.site_kept(logic, sample, ports, 2),
            self.site_kept(logic, sample, ports, 3),
        ]
    }
}
