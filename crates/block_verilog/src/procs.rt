//! The hardware of all procs of a package, with their schedules.

ghost use Rattle.std.specs.Prelude.{◌≡◌, ◌-◌, length, map, List, IfOk, OnOk};
ghost use Rattle.ir_tree.specs.declared.package.Channel.{Channel as SomeChannel};
ghost use Rattle.block_build.specs.Netlist.Registers.{next_register, Lays};
ghost use Rattle.block_verilog.specs.Procs.{AreLaidOut, laid_registers, MadeProc, IsMadeProc, AreMade, ArePutNext};
ghost use Rattle.block_verilog.specs.Each.{EachFrom};

use crate::pipelines::layout::{ProcLayout, lay_out};
use crate::pipelines::pipelines::{ProcWires, proc_nexts, proc_wires};
use crate::signals::layout::Staging;
use block_build::netlist::fifos::ChannelView;
use block_build::netlist::registers::RegisterList;
use block_build::netlist::wires::WireList;
use ir_tree::{Channel, Proc};
use pipe_schedule::Schedule;
use std::alloc::{AllocError, Global};
use vlog_tree::Atom;

/// A schedule as its stages. An activation gives the turn back in the last stage of an interval.
fn staging(schedule: &Schedule) -> Staging<'_>
    ensures stage { result.stage.now ≡ schedule.now.stage }
    ensures stages { result.stages ≡ schedule.now.stages }
    ensures last { result.last ≡ schedule.now.interval - 1 }
{
    Staging {
        stage: schedule.stage.as_slice(),
        stages: schedule.stages,
        last: schedule.interval.saturating_sub(1),
    }
}

/// Lays out the registers of all procs.
pub fn lay_procs(
    alloc: Global,
    registers: &mut RegisterList,
    channels: &[Channel],
    procs: &[Proc],
    schedules: &[Schedule],
) -> Result<Vec<ProcLayout>, AllocError>
    ensures laid { IfOk result (λ layouts. AreLaidOut channels.now (next_register registers.old) procs.now schedules.now layouts.items) }
    ensures lays { IfOk result (λ layouts. Lays registers.old registers.new (laid_registers channels.now procs.now schedules.now layouts.items)) }
{
    let mut layouts = Vec::new(alloc);
    let count = procs.len().min(schedules.len());
    'procs: for i in 0..count {
        let schedule = staging(&schedules[i]);
        let layout = lay_out(alloc, registers, channels, &procs[i], schedule)?;
        layouts.push(layout)?;
    }
    Ok(layouts)
}

/// The wires of the pipelines of all procs, which find this at their channels.
pub fn wire_procs(
    alloc: Global,
    wires: &mut WireList,
    run: Atom,
    channels: &[Channel],
    procs: &[Proc],
    schedules: &[Schedule],
    layouts: &[ProcLayout],
    views: &[ChannelView],
) -> Result<Vec<ProcWires>, AllocError>
    ensures { IfOk result (λ made. length layouts.now ≡ length procs.now → length schedules.now ≡ length procs.now →
        AreMade wires.old wires.new run channels.now procs.now schedules.now layouts.now views.now made.items) }
{
    let mut made = Vec::new(alloc);
    let count = procs.len().min(schedules.len()).min(layouts.len());
    'procs: for i in 0..count {
        let schedule = staging(&schedules[i]);
        let one = proc_wires(
            alloc,
            wires,
            run,
            channels,
            &procs[i],
            schedule,
            &layouts[i],
            views,
        )?;
        made.push(one)?;
    }
    Ok(made)
}

/// What the registers of all procs hold next, in their order.
pub fn next_procs(
    alloc: Global,
    wires: &mut WireList,
    nexts: &mut Vec<Atom>,
    procs: &[Proc],
    schedules: &[Schedule],
    layouts: &[ProcLayout],
    made: &[ProcWires],
) -> Result<(), AllocError>
    ensures { OnOk result ((channels : List SomeChannel) (each : List MadeProc) → map (λ (one : MadeProc). one.made) each ≡ made.now → length layouts.now ≡ length procs.now → length schedules.now ≡ length procs.now →
        length each ≡ length procs.now → EachFrom (IsMadeProc channels procs.now schedules.now layouts.now) 0 each →
        ArePutNext wires.old wires.new channels procs.now schedules.now layouts.now each nexts.old.items nexts.new.items) }
{
    let count = procs
        .len()
        .min(schedules.len())
        .min(layouts.len())
        .min(made.len());
    'procs: for i in 0..count {
        let schedule = staging(&schedules[i]);
        proc_nexts(
            alloc,
            wires,
            nexts,
            &procs[i],
            schedule,
            &layouts[i],
            &made[i],
        )?;
    }
    Ok(())
}
