//! Modules that are put together of registers, wires and what drives the ports.

ghost use Rattle.std.specs.Prelude.{◌≡◌, ◌+◌, ◌++◌, ◌∷◌, [], map, max, IfOk, OnOk};
ghost use Rattle.vlog_tree.specs.Signals.{declared_port, declared_own, storage_role};
ghost use Rattle.block_build.specs.Netlist.Wires.{assigned};
ghost use Rattle.block_verilog.specs.Assembly.{own_name as name_of_own, registers_declared, wires_declared, port_driver, drivers_by, port_drivers as drivers_of, IsAssembled};
ghost use Rattle.block_verilog.specs.Ports.{declared};

use crate::ports::number_behind;
use base::texts::{Name, push_decimal};
use block_build::netlist::fifos::ChannelEnds;
use block_build::netlist::registers::{Register, RegisterList};
use block_build::netlist::sets::{resets, sets};
use block_build::netlist::wires::{Wire, WireList};
use ir_tree::{Channel, Ends};
use sqlite_items::Items;
use std::alloc::{AllocError, Global};
use vlog_tree::{Assignment, Atom, Declaration, Expr, Port, Signal, Simple, Storage, VModule};

/// The name of a register or a wire with this number.
fn own_name(alloc: Global, number: u32) -> Result<Name, AllocError>
    ensures { IfOk result (λ name. name ≡ name_of_own number) }
{
    let mut text = String::from_str(alloc, "n_")?;
    push_decimal(&mut text, u64::from(number))?;
    Ok(Name::from_string(text))
}

/// Declares a register or a wire with this number, of one bit at least.
fn declare(
    alloc: Global,
    declarations: &mut Items<Declaration>,
    storage: Storage,
    number: u32,
    width: u64,
) -> Result<(), AllocError>
    ensures { OnOk result (map declared_own declarations.new ≡ map declared_own declarations.old ++ declared (name_of_own number) (storage_role storage) (max width 1) ∷ []) }
{
    let name = own_name(alloc, number)?;
    declarations.push(Declaration {
        storage,
        name,
        width: width.max(1),
    })
}

/// Declares registers with the numbers from one on.
fn declare_registers(
    alloc: Global,
    declarations: &mut Items<Declaration>,
    first: u32,
    registers: &[Register],
) -> Result<(), AllocError>
    ensures { OnOk result (map declared_own declarations.new ≡ map declared_own declarations.old ++ registers_declared first registers.now) }
{
    'registers: for i in 0..registers.len() {
        let number = number_behind(first, i)?;
        let width = registers[i].width;
        declare(alloc, declarations, Storage::Register, number, width)?;
    }
    Ok(())
}

/// Declares wires with the numbers from one on.
fn declare_wires(
    alloc: Global,
    declarations: &mut Items<Declaration>,
    first: u32,
    wires: &[Wire],
) -> Result<(), AllocError>
    ensures { OnOk result (map declared_own declarations.new ≡ map declared_own declarations.old ++ wires_declared first wires.now) }
{
    'wires: for i in 0..wires.len() {
        let number = number_behind(first, i)?;
        let width = wires[i].width;
        declare(alloc, declarations, Storage::Wire, number, width)?;
    }
    Ok(())
}

/// What drives a wire, which stands so many behind another.
fn assignment(first: u32, count: usize, wire: Wire) -> Result<Assignment, AllocError>
    ensures { IfOk result (λ a. a ≡ record { target = record { 0 = first + count }; value = wire.driver }) }
{
    let number = number_behind(first, count)?;
    let Wire { width: _, driver } = wire;
    Ok(Assignment {
        target: Signal(number),
        value: driver,
    })
}

/// What drives wires with the numbers from one on.
fn assignments(alloc: Global, first: u32, wires: Vec<Wire>) -> Result<Items<Assignment>, AllocError>
    ensures { IfOk result (λ made. made ≡ assigned first wires.items) }
{
    let mut made = Items::new(alloc);
    'wires: for wire in wires {
        made.push(assignment(first, made.len(), wire)?)?;
    }
    Ok(made)
}

/// What drives a port.
fn port_assignment(port: u32, atom: Atom) -> Assignment
    ensures { result ≡ port_driver port atom }
{
    Assignment {
        target: Signal(port),
        value: Expr::Simple(Simple::Atom(atom)),
    }
}

/// Puts what drives the ports of a channel behind other assignments.
fn drive_ports(
    made: &mut Items<Assignment>,
    port: u32,
    ends: Ends,
    end: ChannelEnds,
) -> Result<(), AllocError>
    ensures { OnOk result (made.new ≡ made.old ++ drivers_by port ends end) }
{
    match ends {
        Ends::Input => made.push(port_assignment(number_behind(port, 2)?, end.ready)),
        Ends::Output => {
            made.push(port_assignment(port, end.word))?;
            made.push(port_assignment(number_behind(port, 1)?, end.offered))
        }
        Ends::Inner(_) => Ok(()),
    }
}

/// The same of all channels, the first ports of which have these numbers.
fn drive_all_ports(
    made: &mut Items<Assignment>,
    channels: &[Channel],
    ports: &[u32],
    ends: &[ChannelEnds],
) -> Result<(), AllocError>
    ensures { OnOk result (made.new ≡ made.old ++ drivers_of channels.now ports.now ends.now) }
{
    let count = channels.len().min(ports.len()).min(ends.len());
    'channels: for i in 0..count {
        drive_ports(made, ports[i], channels[i].ends, ends[i])?;
    }
    Ok(())
}

/// The declarations of a module.
fn declarations(
    alloc: Global,
    registers: &RegisterList,
    wires: &WireList,
) -> Result<Items<Declaration>, AllocError>
    ensures { IfOk result (λ made. map declared_own made ≡ registers_declared registers.now.first registers.now.registers.items ++ wires_declared wires.now.first wires.now.wires.items) }
{
    let mut made = Items::new(alloc);
    declare_registers(
        alloc,
        &mut made,
        registers.first,
        registers.registers.as_slice(),
    )?;
    declare_wires(alloc, &mut made, wires.first, wires.wires.as_slice())?;
    Ok(made)
}

/// What drives the wires of a module and its ports.
fn all_assignments(
    alloc: Global,
    wires: WireList,
    channels: &[Channel],
    ports: &[u32],
    ends: &[ChannelEnds],
) -> Result<Items<Assignment>, AllocError>
    ensures { IfOk result (λ made. made ≡ assigned wires.first wires.wires.items ++ drivers_of channels.now ports.now ends.now) }
{
    let WireList { first, wires } = wires;
    let mut made = assignments(alloc, first, wires)?;
    drive_all_ports(&mut made, channels, ports, ends)?;
    Ok(made)
}

/// A module of these ports, registers, which take these values, and wires; what stands at its own ends of channels drives the
/// ports, the first of which have these numbers.
pub fn assembled(
    alloc: Global,
    name: Name,
    ports: Items<Port>,
    registers: &RegisterList,
    nexts: &[Atom],
    wires: WireList,
    channels: &[Channel],
    numbers: &[u32],
    ends: &[ChannelEnds],
) -> Result<VModule, AllocError>
    ensures name { IfOk result (λ m. m.name ≡ name) }
    ensures parts { IfOk result (λ m. IsAssembled m (map declared_port ports) registers.now nexts.now wires (drivers_of channels.now numbers.now ends.now)) }
{
    let declarations = declarations(alloc, registers, &wires)?;
    let reset_values = resets(alloc, registers.registers.as_slice())?;
    let at_reset = sets(alloc, registers.first, reset_values.as_slice())?;
    let at_clock = sets(alloc, registers.first, nexts)?;
    let assignments = all_assignments(alloc, wires, channels, numbers, ends)?;
    Ok(VModule {
        name,
        ports,
        declarations,
        assignments,
        at_reset,
        at_clock,
    })
}
