//! The module of a package.

ghost use Rattle.std.specs.Prelude.{◌≡◌, ◌⊎◌, ◌++◌, ◌<◌, ◌^◌, ℕ, List, map, length, codes, IfOk, IfErr, MatchOption, None};
ghost use Rattle.block_build.specs.Netlist.Registers.{next_register};
ghost use Rattle.ir_tree.specs.Rules.Verified.{IsVerified};
ghost use Rattle.pipe_schedule.specs.declared.schedule.Schedule.{Schedule as SomeSchedule};
ghost use Rattle.vlog_tree.specs.Verifier.Verified.{IsVerdict};
ghost use Rattle.vlog_tree.specs.Verifier.WithSpans.{no_spans};
ghost use Rattle.vlog_tree.specs.WellFormed.{CanRun};
ghost use Rattle.xb_span.specs.declared.limit.Limit.{Limit as SomeLimit};
ghost use Rattle.block_verilog.specs.declared.build.BuildError.TheVariants.{Over, OutOfMemory};
ghost use Rattle.block_verilog.specs.Each.{EachFrom};
ghost use Rattle.block_verilog.specs.Queues.{AreShown};
ghost use Rattle.block_verilog.specs.Modules.{IsMadeOfParts, IsModuleOf, IsFirstTooDeep, HaveSlots, NoneTooDeep, AreFifoDepths, is_deep as too_deep_by, limit_of, AreScheduled};
ghost use Rattle.block_verilog.specs.Procs.{MadeProc, IsMadeProc};
ghost use Rattle.block_verilog.specs.Put.{AllLaid, AllPut, AllNext};

use crate::assembly::assembled;
use crate::laws::modules_drive_their_blocks;
use crate::pipelines::layout::ProcLayout;
use crate::pipelines::pipelines::ProcWires;
use crate::ports::{joined_name, module_ports, number_behind, port_numbers};
use crate::procs::{lay_procs, next_procs, wire_procs};
use crate::queues::{depth_at, fifo_nexts, lay_fifos, views};
use crate::sides::all_ends;
use block_build::netlist::fifos::{ChannelEnds, ChannelView, Fifo};
use block_build::netlist::registers::RegisterList;
use block_build::netlist::wires::WireList;
use ir_tree::{Ends, Package};
use pipe_schedule::Schedule;
use std::alloc::{AllocError, Global};
use vlog_tree::verifier::verify;
use vlog_tree::{Atom, Signal, VModule};
use xb_span::{Limit, What};

/// The most words that a FIFO holds.
pub const DEEPEST: u32 = 64;

/// Why there is no module.
#[derive(Clone, Copy, PartialEq, Eq)]
pub enum BuildError {
    /// A FIFO is too deep.
    Over(Limit),
    OutOfMemory,
}

impl From<AllocError> for BuildError {
    ghost use Rattle.block_verilog.specs.declared.build.BuildError.TheVariants.{OutOfMemory};

    ghost from_gives = { λ _ e. e ≡ OutOfMemory };

    fn from(_error: AllocError) -> Self {
        BuildError::OutOfMemory
    }
}

/// Where all registers of a package stand: those of FIFOs, then those of procs.
#[derive(Drop)]
struct Layout {
    registers: RegisterList,
    fifos: Vec<Option<Fifo>>,
    procs: Vec<ProcLayout>,
}

/// What is put for a package: what is found at channels, the wires of procs, and what stands at the ends of channels.
#[derive(Drop)]
struct Made {
    views: Vec<ChannelView>,
    procs: Vec<ProcWires>,
    ends: Vec<ChannelEnds>,
}

/// Lays out all registers, from one on.
fn lay_out(
    alloc: Global,
    first: u32,
    ir: &Package,
    schedules: &[Schedule],
    depths: &[u32],
) -> Result<Layout, AllocError>
    ensures { IfOk result (λ laid. AllLaid ir.now schedules.now depths.now first laid.registers laid.fifos.items laid.procs.items) }
{
    let mut registers = RegisterList::new(alloc, first);
    let channels = ir.channels.as_slice();
    let fifos = lay_fifos(alloc, &mut registers, channels, depths)?;
    let procs = lay_procs(
        alloc,
        &mut registers,
        channels,
        ir.procs.as_slice(),
        schedules,
    )?;
    Ok(Layout {
        registers,
        fifos,
        procs,
    })
}

/// Puts all wires but those of what registers hold next.
fn put_wires(
    alloc: Global,
    wires: &mut WireList,
    ir: &Package,
    schedules: &[Schedule],
    ports: &[u32],
    layout: &Layout,
) -> Result<Made, AllocError>
    ensures { IfOk result (λ made. length layout.now.procs.items ≡ length ir.now.procs → length schedules.now ≡ length ir.now.procs →
        AllPut wires.old wires.new ir.now schedules.now ports.now layout.now.fifos.items layout.now.procs.items made.views.items made.procs.items made.ends.items) }
{
    let channels = ir.channels.as_slice();
    let procs = ir.procs.as_slice();
    let run = wires.inverse(Atom::Signal(Signal(1)))?;
    let views = views(alloc, wires, channels, ports, layout.fifos.as_slice())?;
    let made = wire_procs(
        alloc,
        wires,
        run,
        channels,
        procs,
        schedules,
        layout.procs.as_slice(),
        views.as_slice(),
    )?;
    let ends = all_ends(alloc, wires, channels, procs, made.as_slice())?;
    Ok(Made {
        views,
        procs: made,
        ends,
    })
}

/// What all registers hold next, in their order.
fn put_nexts(
    alloc: Global,
    wires: &mut WireList,
    ir: &Package,
    schedules: &[Schedule],
    layout: &Layout,
    made: &Made,
) -> Result<Vec<Atom>, AllocError>
    ensures { IfOk result (λ nexts. AreShown layout.now.fifos.items made.now.views.items → (each : List MadeProc) → map (λ (one : MadeProc). one.made) each ≡ made.now.procs.items →
        length layout.now.procs.items ≡ length ir.now.procs → length schedules.now ≡ length ir.now.procs → length each ≡ length ir.now.procs →
        EachFrom (IsMadeProc ir.now.channels ir.now.procs schedules.now layout.now.procs.items) 0 each →
        AllNext wires.old wires.new ir.now schedules.now layout.now.fifos.items layout.now.procs.items made.now.views.items each made.now.ends.items nexts.items) }
{
    let mut nexts = Vec::new(alloc);
    fifo_nexts(
        wires,
        &mut nexts,
        layout.fifos.as_slice(),
        made.views.as_slice(),
        made.ends.as_slice(),
    )?;
    next_procs(
        alloc,
        wires,
        &mut nexts,
        ir.procs.as_slice(),
        schedules,
        layout.procs.as_slice(),
        made.procs.as_slice(),
    )?;
    Ok(nexts)
}

/// The number of the first wire behind all registers.
fn first_wire(registers: &RegisterList) -> Result<u32, AllocError>
    ensures number { IfOk result (λ number. number ≡ next_register registers.now) }
    ensures few { IfOk result (λ number. number < 2 ^ 32) }
{
    let next = registers.next()?;
    Ok(next)
}

/// The module, where no FIFO is too deep.
fn put_together(
    alloc: Global,
    ir: &Package,
    schedules: &[Schedule],
    depths: &[u32],
) -> Result<VModule, AllocError>
    ensures name { IfOk result (λ m. m.name ≡ ir.now.name ++ codes "_top") }
    ensures made { IfOk result (λ m. (clock : ℕ) → IsVerified ir.now → AreScheduled clock ir.now.procs schedules.now → AreFifoDepths ir.now.channels depths.now →
        IsMadeOfParts m ir.now clock (map (λ (schedule : SomeSchedule). schedule.stage) schedules.now) depths.now) }
{
    let channels = ir.channels.as_slice();
    let ports = module_ports(alloc, channels)?;
    let numbers = port_numbers(alloc, 2, channels)?;
    let first = number_behind(0, ports.len())?;
    let layout = lay_out(alloc, first, ir, schedules, depths)?;
    let next = first_wire(&layout.registers)?;
    let mut wires = WireList::new(alloc, next);
    let made = put_wires(
        alloc,
        &mut wires,
        ir,
        schedules,
        numbers.as_slice(),
        &layout,
    )?;
    let nexts = put_nexts(alloc, &mut wires, ir, schedules, &layout, &made)?;
    let name = joined_name(alloc, ir.name.as_str(), "_top")?;
    assembled(
        alloc,
        name,
        ports,
        &layout.registers,
        nexts.as_slice(),
        wires,
        channels,
        numbers.as_slice(),
        made.ends.as_slice(),
    )
}

/// The same, once it is known to break no rule. None is known that does; one that did would count as one for which memory is
/// wanting.
fn checked(
    alloc: Global,
    ir: &Package,
    schedules: &[Schedule],
    depths: &[u32],
) -> Result<VModule, AllocError>
    ensures verified { IfOk result (λ m. IsVerdict m no_spans None) }
    ensures runs { IfOk result CanRun }
    ensures name { IfOk result (λ m. m.name ≡ ir.now.name ++ codes "_top") }
    ensures made { IfOk result (λ m. (clock : ℕ) → IsVerified ir.now → AreScheduled clock ir.now.procs schedules.now → AreFifoDepths ir.now.channels depths.now →
        IsMadeOfParts m ir.now clock (map (λ (schedule : SomeSchedule). schedule.stage) schedules.now) depths.now) }
{
    let made = put_together(alloc, ir, schedules, depths)?;
    match verify(alloc, &made) {
        Ok(()) => Ok(made),
        Err(_) => Err(AllocError),
    }
}

/// The first inner channel whose FIFO is too deep, if there is one.
fn too_deep(ir: &Package, depths: &[u32]) -> Option<Limit>
    ensures { MatchOption result (NoneTooDeep ir.now.channels depths.now) (IsFirstTooDeep ir.now.channels depths.now) }
{
    let channels = ir.channels.as_slice();
    'channels: for i in 0..channels.len() {
        let depth = depth_at(depths, i);
        if is_deep(channels[i].ends, depth) {
            return Some(depth_limit(depth));
        }
    }
    None
}

/// Whether the FIFO of a channel is too deep.
fn is_deep(ends: Ends, depth: u32) -> bool
    ensures { result ≡ too_deep_by ends depth }
{
    match ends {
        Ends::Input => false,
        Ends::Output => false,
        Ends::Inner(_) => DEEPEST < depth,
    }
}

/// The limit that so deep a FIFO passes.
fn depth_limit(depth: u32) -> Limit
    ensures { result ≡ limit_of depth }
{
    Limit {
        what: What::Depth,
        found: u64::from(depth),
        most: u64::from(DEEPEST),
    }
}

/// The module of a verified package, a schedule for each proc and a depth for each channel: in each row it drives at its ports
/// what the package's block does.
pub fn build(
    alloc: Global,
    ir: &Package,
    schedules: &[Schedule],
    depths: &[u32],
) -> Result<VModule, BuildError>
    requires verified { IsVerified ir.now }
    requires deep { HaveSlots ir.now.channels depths.now }
    ensures verified { IfOk result (λ m. IsVerdict m no_spans None) }
    ensures shallow { IfOk result (λ m. NoneTooDeep ir.now.channels depths.now) }
    ensures module { IfOk result (λ m. (clock : ℕ) → AreScheduled clock ir.now.procs schedules.now → IsModuleOf m ir.now (map (λ (schedule : SomeSchedule). schedule.stage) schedules.now) depths.now) }
    ensures refused { IfErr result (λ e. (e ≡ OutOfMemory) ⊎ ((limit : SomeLimit) × IsFirstTooDeep ir.now.channels depths.now limit × (e ≡ Over limit))) }
{
    modules_drive_their_blocks();
    match too_deep(ir, depths) {
        Some(limit) => Err(BuildError::Over(limit)),
        None => Ok(checked(alloc, ir, schedules, depths)?),
    }
}
