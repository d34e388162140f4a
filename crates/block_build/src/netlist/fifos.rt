//! The wires of FIFOs.

ghost use Rattle.std.specs.Prelude.{◌≡◌, [], ◌∷◌, ◌++◌, ◌+◌, ◌*◌, ◌<◌, ℕ, suc, IfOk, OnOk};
ghost use Rattle.block_build.specs.declared.netlist.fifos.ChannelEnds.{ChannelEnds as SomeEnds};
ghost use Rattle.block_build.specs.Netlist.Added.{next_number, AddsWires, Puts};
ghost use Rattle.block_build.specs.Netlist.Buffers.{fifo_slot, fifo_nets, view_at, flow_at, slots_next};
ghost use Rattle.block_build.specs.Netlist.Fifos.{view_wires, count_wires, count_net, slot_wires};
ghost use Rattle.vlog_tree.specs.declared.expression.Binary.TheVariants as binary;
ghost use Rattle.block_build.specs.Netlist.Gates.{net, binary_gate, choice_gate};
ghost use Rattle.block_build.specs.Netlist.Literals.{literal_atom};
ghost use Rattle.block_build.specs.Netlist.Wires.{AreWired};

use crate::netlist::literals::literal;
use crate::netlist::wires::WireList;
use std::alloc::AllocError;
use vlog_tree::{Atom, Binary, Signal};

/// What a proc finds at a channel: whether a word is there, which, and whether there is room for one.
#[derive(Clone, Copy)]
pub struct ChannelView {
    pub valid: Atom,
    pub word: Atom,
    pub room: Atom,
}

/// What stands at the two sides of a channel: whether its reader is ready for a word, whether its writer has one valid, and which.
#[derive(Clone, Copy)]
pub struct ChannelEnds {
    pub ready: Atom,
    pub offered: Atom,
    pub word: Atom,
}

/// A FIFO: how many words it holds, of how many bits; the register of its count, so many bits wide, and the first of its slots.
#[derive(Clone, Copy)]
pub struct Fifo {
    pub depth: u32,
    pub width: u64,
    pub count_width: u64,
    pub count: Atom,
    pub slots: u32,
}

/// Whether it gives a word and whether it takes one, how many are left between, and how many it has next.
#[derive(Clone, Copy)]
pub struct Flow {
    pub gives: Atom,
    pub takes: Atom,
    pub between: Atom,
    pub count: Atom,
}

impl Fifo {
    /// A number as wide as its count.
    fn number(&self, number: u32) -> Atom
        ensures { result ≡ literal_atom self.now.count_width number }
    {
        literal(self.count_width, u128::from(number))
    }

    /// A slot. Behind the last one it is the last.
    fn slot(&self, slot: u32) -> Atom
        ensures { result ≡ fifo_slot self.now slot }
    {
        let slot = slot.min(self.depth.saturating_sub(1));
        Atom::Signal(Signal(self.slots.saturating_add(slot)))
    }

    /// The slot behind a slot.
    fn slot_behind(&self, slot: u32) -> Atom
        ensures { result ≡ fifo_slot self.now (suc slot) }
    {
        if slot < self.depth.saturating_sub(1) {
            self.slot(slot + 1)
        } else {
            self.slot(slot)
        }
    }

    /// Whether a word is there, which, and whether there is room.
    pub fn view(&self, wires: &mut WireList) -> Result<ChannelView, AllocError>
        ensures signals { IfOk result (λ view. view ≡ view_at self.now (next_number wires.old)) }
        ensures puts { OnOk result ((ends : SomeEnds) (first goes : ℕ) → Puts wires.old wires.new (view_wires (fifo_nets self.now ends first goes))) }
    {
        let valid = wires.binary(1, Binary::NotEqual, self.count, self.number(0))?;
        let room = wires.binary(1, Binary::NotEqual, self.count, self.number(self.depth))?;
        Ok(ChannelView {
            valid,
            word: self.slot(0),
            room,
        })
    }

    /// What it gives and takes, where this stands at its sides.
    fn flow(
        &self,
        wires: &mut WireList,
        view: ChannelView,
        ends: ChannelEnds,
    ) -> Result<Flow, AllocError>
        ensures signals { IfOk result (λ flow. flow ≡ flow_at (next_number wires.old)) }
        ensures number { OnOk result (next_number wires.new ≡ next_number wires.old + 6) }
        ensures puts { OnOk result ((first : ℕ) → view.valid ≡ net first → view.room ≡ net (suc first) → Puts wires.old wires.new (count_wires (fifo_nets self.now ends first (next_number wires.old)))) }
    {
        let gives = wires.both(ends.ready, view.valid)?;
        let takes = wires.both(ends.offered, view.room)?;
        let less = wires.binary(
            self.count_width,
            Binary::Subtract,
            self.count,
            self.number(1),
        )?;
        let between = wires.choice(self.count_width, gives, less, self.count)?;
        let count = self.grown(wires, takes, between)?;
        Ok(Flow {
            gives,
            takes,
            between,
            count,
        })
    }

    /// One word more, where it takes one.
    fn grown(&self, wires: &mut WireList, takes: Atom, between: Atom) -> Result<Atom, AllocError>
        ensures signal { IfOk result (λ count. count ≡ net (suc (next_number wires.old))) }
        ensures puts { OnOk result (Puts wires.old wires.new
            (binary_gate self.now.count_width binary.Add between (literal_atom self.now.count_width 1) ∷ choice_gate self.now.count_width takes (net (next_number wires.old)) between ∷ [])) }
    {
        let more = wires.binary(self.count_width, Binary::Add, between, self.number(1))?;
        wires.choice(self.count_width, takes, more, between)
    }

    /// What its registers hold next, in their order, where this stands at its sides.
    pub fn go_on(
        &self,
        wires: &mut WireList,
        nexts: &mut Vec<Atom>,
        view: ChannelView,
        ends: ChannelEnds,
    ) -> Result<(), AllocError>
        ensures signals { OnOk result ((first : ℕ) → let fifo = fifo_nets self.now ends first (next_number wires.old) in nexts.new.items ≡ nexts.old.items ++ (net (count_net fifo) ∷ slots_next fifo 0 fifo.depth)) }
        ensures wired { OnOk result ((first : ℕ) → view.valid ≡ net first → view.room ≡ net (suc first) → let fifo = fifo_nets self.now ends first (next_number wires.old) in
            AddsWires wires.old wires.new (λ v. AreWired v fifo.goes (count_wires fifo) × ((x : ℕ) → x < fifo.depth → AreWired v (fifo.next x) (slot_wires fifo x)))) }
    {
        let flow = self.flow(wires, view, ends)?;
        nexts.push(flow.count)?;
        'slots: for x in 0..self.depth {
            let next = self.slot_next(wires, x, flow, ends.word)?;
            nexts.push(next)?;
        }
        Ok(())
    }

    /// What a slot holds next, where this word comes.
    fn slot_next(
        &self,
        wires: &mut WireList,
        x: u32,
        flow: Flow,
        word: Atom,
    ) -> Result<Atom, AllocError>
        ensures signal { IfOk result (λ next. next ≡ net (suc (suc (suc (next_number wires.old))))) }
        ensures puts { OnOk result ((ends : SomeEnds) (first goes : ℕ) → flow ≡ flow_at goes → next_number wires.old ≡ goes + 6 + 4 * x → ends.word ≡ word →
            Puts wires.old wires.new (slot_wires (fifo_nets self.now ends first goes) x)) }
    {
        let free = wires.binary(1, Binary::Equal, flow.between, self.number(x))?;
        let comes = wires.both(flow.takes, free)?;
        let shifted = wires.choice(self.width, flow.gives, self.slot_behind(x), self.slot(x))?;
        wires.choice(self.width, comes, word, shifted)
    }
}
