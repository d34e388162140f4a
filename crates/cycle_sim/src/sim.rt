ghost use Rattle.std.specs.Prelude.{◌≡◌, ℕ, List, [], ◌∷◌, ◌++◌, ◌+◌, ◌*◌, ◌<◌, length, slice_get, IfOk, IsTrue, ◌↔◌, if◌then◌else◌};
ghost use Rattle.vlog_tree.specs.WellFormed.{CanRun};
ghost use Rattle.vlog_tree.specs.Signals.{channels_of};
ghost use Rattle.vlog_tree.specs.declared.row.Row.{Row};
ghost use Rattle.vlog_tree.specs.declared.row.Outs.{Outs};
ghost use Rattle.vlog_tree.specs.Rows.{IsRowOf, shown_channel, outs_of};
ghost use Rattle.vlog_tree.specs.Settled.{values_of};
ghost use Rattle.cycle_sim.specs.Sim.{StandsAfter, IsUnchangedBy, SameRegisters, IsRunning};
ghost use Rattle.cycle_sim.specs.Stored.{cycled, evaluated};

use crate::clock::clock;
use crate::evaluate::of_bool;
use crate::give::give;
use crate::order::order_of;
use crate::settle::settle;
use crate::zeros::zeros_of;
use std::alloc::{AllocError, Global};
use std::marker::Model;
use vlog_tree::{Direction, Row, Set, Shown, VModule};
use xb_bits::Bits;

/// A module that runs cycle by cycle. All its memory is taken when it is made.
#[derive(Drop)]
pub struct Sim {
    design: VModule,
    /// The assignments' indices in an order in which each reads only what is there before it.
    indices: Vec<u32>,
    /// A number for each signal.
    values: Vec<Bits>,
    /// Room for the numbers as they were before the registers took theirs.
    before: Vec<Bits>,
}

impl Model for Sim {
    ghost use Rattle.std.specs.Prelude.{List};
    ghost use Rattle.cycle_sim.specs.Sim.{SimState, IsRunning};

    ghost Value = { SimState };

    ghost view = { λ sim. record { design = sim.design; words = sim.values.items } };

    ghost invariant = { λ sim. IsRunning sim.design sim.indices.items sim.values.items sim.before.items };
}

impl Sim {
    /// A simulator of a module, before its first row: each register holds 0.
    ///
    /// It takes time and memory linear in the module.
    pub fn new(alloc: Global, design: VModule) -> Result<Sim, AllocError>
        requires { CanRun design }
        ensures design { IfOk result (λ sim. sim.design ≡ design) }
        ensures stands { IfOk result (λ sim. StandsAfter sim [] []) }
    {
        let values = zeros_of(alloc, &design)?;
        let indices = order_of(alloc, &design, values.len())?;
        let before = Vec::from_slice(alloc, values.as_slice())?;
        Ok(Sim {
            design,
            indices,
            values,
            before,
        })
    }

    /// What the module drove at a channel, by its index among the channels, in the last cycle.
    pub fn shown(&self, channel: usize) -> Shown
        requires { channel < length (channels_of self.now.design) }
        ensures { slice_get (outs_of self.now.design (values_of self.now.words)).channels channel ≡ Some result }
    {
        let at = first_port(&self.values, channel);
        let direction = self.design.ports.as_slice()[at].direction;
        shown_at(&self.values, direction, at)
    }

    /// One cycle, in which the outside does what the row says.
    ///
    /// It takes no memory, and work linear in the module: each assignment is evaluated once.
    pub fn cycle(&mut self, row: &Row)
        requires { IsRowOf self.old.design row.now }
        ensures design { self.new.design ≡ self.old.design }
        ensures stands { (rows : List Row) (outs : List Outs) → StandsAfter self.old rows outs →
            StandsAfter self.new (rows ++ row.now ∷ []) (outs ++ outs_of self.new.design (values_of self.new.words) ∷ []) }
    {
        advance(
            &mut self.values,
            &mut self.before,
            &self.design,
            &self.indices,
            row,
        );
    }

    /// One cycle, in which the outside does what the row says, and whether it left each register with what it held. Then further
    /// cycles with the same row change nothing.
    ///
    /// It takes no memory, and the time of a [`cycle`](Sim::cycle) and of a look at each signal up to the first that changed.
    pub fn cycle_is_still(&mut self, row: &Row) -> bool
        requires { IsRowOf self.old.design row.now }
        ensures design { self.new.design ≡ self.old.design }
        ensures stands { (rows : List Row) (outs : List Outs) → StandsAfter self.old rows outs →
            StandsAfter self.new (rows ++ row.now ∷ []) (outs ++ outs_of self.new.design (values_of self.new.words) ∷ []) }
        ensures same { IsTrue result ↔ SameRegisters self.new.design (values_of self.old.words) (values_of self.new.words) }
        ensures still { IsTrue result → IsUnchangedBy self.new row.now }
    {
        advance(
            &mut self.values,
            &mut self.before,
            &self.design,
            &self.indices,
            row,
        );
        are_same(&self.before, &self.values)
    }
}

/// Takes the numbers of a module's signals through one cycle. `before` is room for them.
fn advance(values: &mut [Bits], before: &mut [Bits], design: &VModule, indices: &[u32], row: &Row)
    requires running { IsRunning design.now indices.now values.old before.old }
    requires row { IsRowOf design.now row.now }
    ensures values { values.new ≡ cycled design.now indices.now row.now values.old }
    ensures room { length before.new ≡ length before.old }
    ensures before { before.new ≡ evaluated design.now indices.now row.now values.old }
{
    values[1] = of_bool(row.reset);
    give(values, 2, row.channels.as_slice());
    settle(values, design.assignments.as_slice(), indices);
    before.copy_from_slice(values);
    clock(before, values, sets_of(design, row.reset));
}

/// Whether each signal has the same number in both.
fn are_same(before: &[Bits], values: &[Bits]) -> bool
    ensures { IsTrue result ↔ (before.now ≡ values.now) }
{
    before == values
}

/// What the registers take in a cycle with reset, or without.
fn sets_of(design: &VModule, reset: bool) -> &[Set]
    ensures { result.now ≡ (if reset then design.now.at_reset else design.now.at_clock) }
{
    if reset {
        design.at_reset.as_slice()
    } else {
        design.at_clock.as_slice()
    }
}

/// The first port of a channel, as a signal, where it is among these.
fn first_port(values: &[Bits], channel: usize) -> usize
    requires { 2 + 3 * channel + 2 < length values.now }
    ensures { result ≡ 2 + 3 * channel }
{
    2 + 3 * channel
}

/// What signals with these numbers drive at the channel whose first port is signal `at`.
fn shown_at(values: &[Bits], direction: Direction, at: usize) -> Shown
    requires { at + 2 < length values.now }
    ensures { result ≡ shown_channel (values_of values.now) at direction }
{
    match direction {
        Direction::Input => Shown::Input {
            ready: values[at + 2].value() != 0,
        },
        Direction::Output => Shown::Output {
            word: values[at],
            valid: values[at + 1].value() != 0,
        },
    }
}
