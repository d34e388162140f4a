//! The ports of a module.

ghost use Rattle.std.specs.Prelude.{◌≡◌, ◌+◌, ◌++◌, ◌∷◌, [], map, max, IfOk, OnOk};
ghost use Rattle.vlog_tree.specs.declared.signal.Role.TheVariants.{InputSignal};
ghost use Rattle.vlog_tree.specs.Signals.{declared_port, port_role};
ghost use Rattle.block_verilog.specs.Ports.{declared, channel_ports, ports_by, module_ports as ports_of_module, count_ports as ports_counted, ports_from};

use base::texts::Name;
use ir_tree::node_types::width_of;
use ir_tree::{Channel, Ends};
use sqlite_items::Items;
use std::alloc::{AllocError, Global};
use vlog_tree::{Direction, Port};

/// The number that stands so many behind another. No number is past 2^32 - 2.
pub fn number_behind(first: u32, count: usize) -> Result<u32, AllocError>
    ensures { IfOk result (λ number. number ≡ first + count) }
{
    let number = u64::from(first).saturating_add(count as u64);
    if number < 0xffff_ffff {
        Ok(number as u32)
    } else {
        Err(AllocError)
    }
}

/// A name of two parts.
pub fn joined_name(alloc: Global, base: &str, end: &str) -> Result<Name, AllocError>
    ensures { IfOk result (λ name. name ≡ base.now ++ end.now) }
{
    let mut text = String::from_str(alloc, base)?;
    text.push_str(end)?;
    Ok(Name::from_string(text))
}

/// A port, of one bit at least.
fn port(name: Name, direction: Direction, width: u64) -> Port
    ensures { declared_port result ≡ declared name (port_role direction) (max width 1) }
{
    Port {
        direction,
        name,
        width: width.max(1),
    }
}

/// Puts the port of one bit that stands for itself behind those that are there.
fn push_bit(alloc: Global, ports: &mut Items<Port>, name: &str) -> Result<(), AllocError>
    ensures { OnOk result (map declared_port ports.new ≡ map declared_port ports.old ++ declared name.now InputSignal 1 ∷ []) }
{
    let name = Name::from_string(String::from_str(alloc, name)?);
    ports.push(port(name, Direction::Input, 1))
}

/// Puts the ports of a channel behind them: data and `vld` in one direction, `rdy` in the other.
fn push_channel(
    alloc: Global,
    ports: &mut Items<Port>,
    channel: &Channel,
    there: Direction,
    back: Direction,
) -> Result<(), AllocError>
    ensures { OnOk result (map declared_port ports.new ≡ map declared_port ports.old ++ channel_ports channel.now (port_role there) (port_role back)) }
{
    let name = channel.name.as_str();
    let word = joined_name(alloc, name, "_data")?;
    let valid = joined_name(alloc, name, "_vld")?;
    let ready = joined_name(alloc, name, "_rdy")?;
    ports.push(port(word, there, width_of(&channel.ty)))?;
    ports.push(port(valid, there, 1))?;
    ports.push(port(ready, back, 1))
}

/// The same, if it is an outer channel.
fn push_ports(alloc: Global, ports: &mut Items<Port>, channel: &Channel) -> Result<(), AllocError>
    ensures { OnOk result (map declared_port ports.new ≡ map declared_port ports.old ++ ports_by channel.now channel.now.ends) }
{
    match channel.ends {
        Ends::Input => push_channel(alloc, ports, channel, Direction::Input, Direction::Output),
        Ends::Output => push_channel(alloc, ports, channel, Direction::Output, Direction::Input),
        Ends::Inner(_) => Ok(()),
    }
}

/// The ports of the module of a package with these channels.
pub fn module_ports(alloc: Global, channels: &[Channel]) -> Result<Items<Port>, AllocError>
    ensures { IfOk result (λ ports. map declared_port ports ≡ ports_of_module channels.now) }
{
    let mut ports = Items::new(alloc);
    push_bit(alloc, &mut ports, "clk")?;
    push_bit(alloc, &mut ports, "rst")?;
    'channels: for i in 0..channels.len() {
        push_ports(alloc, &mut ports, &channels[i])?;
    }
    Ok(ports)
}

/// How many ports a channel has.
fn count_ports(ends: Ends) -> usize
    ensures { result ≡ ports_counted ends }
{
    match ends {
        Ends::Input => 3,
        Ends::Output => 3,
        Ends::Inner(_) => 0,
    }
}

/// The number of the first port of each channel, or of the next one's where it has none, where that of the first channel is this.
pub fn port_numbers(alloc: Global, first: u32, channels: &[Channel]) -> Result<Vec<u32>, AllocError>
    ensures { IfOk result (λ numbers. numbers.items ≡ ports_from first channels.now) }
{
    let mut numbers = Vec::new(alloc);
    let mut next = first;
    'channels: for i in 0..channels.len() {
        numbers.push(next)?;
        next = number_behind(next, count_ports(channels[i].ends))?;
    }
    Ok(numbers)
}
