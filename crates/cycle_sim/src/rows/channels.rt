//! The channels of a module by their names.

ghost use Rattle.std.specs.Prelude.{◌≡◌, ◌≤◌, ℕ, List, [], drop, bytes_eq, if◌then◌else◌, Some, None, IfOk, OnOk, MatchOption};
ghost use Rattle.vlog_tree.specs.Signals.{Channel as AnyChannel, channel_of, channels_at, channels_of};
ghost use Rattle.cycle_sim.specs.Rows.Inner.Known.{AreKnown, IsFirst, number_in, or_else, shape_of};
ghost use Rattle.cycle_sim.specs.Rows.Said.{channel_named, is_direction, names_of, width_at, word_width};

use sqlite_items::Items;
use std::alloc::{AllocError, Global};
use std::collections::BTreeMap;
use vlog_tree::{Direction, Port, VModule};

/// The direction of a channel, and the width of its words.
#[derive(Clone, Copy)]
pub struct Shape {
    pub direction: Direction,
    pub width: u64,
}

/// The channels of a module: their numbers by their names, and their shapes by their numbers.
#[derive(Drop)]
pub struct Channels<'a> {
    pub numbers: BTreeMap<&'a [u8], usize>,
    pub shapes: Vec<Shape>,
}

impl<'a> Channels<'a> {
    /// The channels of a module.
    pub fn of(alloc: Global, design: &'a VModule) -> Result<Channels<'a>, AllocError>
        ensures { IfOk result (AreKnown (channels_of design.entry.now)) }
    {
        let mut numbers = BTreeMap::new(alloc);
        let mut shapes = Vec::new(alloc);
        let mut left = channel_ports(design);
        'channels: while let Some(first) = first_channel(left) {
            put_new(&mut numbers, channel_name(first.data), shapes.len())?;
            shapes.push(shape_of(first.data))?;
            left = first.rest;
        }
        Ok(Channels { numbers, shapes })
    }

    /// The number of the channel of this name, if it has this direction.
    pub fn number(&self, name: &[u8], direction: Direction) -> Option<usize>
        ensures { (channels : List AnyChannel) → AreKnown channels self.now → result ≡ channel_named channels direction name.now }
    {
        let number = *self.numbers.get(name)?;
        match self.shapes.get(number) {
            Some(shape) if is_direction(direction, shape.direction) => Some(number),
            _ => None,
        }
    }

    /// The width of its words; 1 where there is no such channel.
    pub fn width(&self, number: Option<usize>) -> u64
        ensures least { 1 ≤ result }
        ensures most { result ≤ 128 }
        ensures is { (channels : List AnyChannel) → AreKnown channels self.now → result ≡ width_at channels number }
    {
        match number {
            None => 1,
            Some(number) => match self.shapes.get(number) {
                Some(shape) => word_width(shape.width),
                None => 1,
            },
        }
    }
}

/// The names of a module's channels.
pub fn channel_names(alloc: Global, design: &VModule) -> Result<Items<Items<u8>>, AllocError>
    ensures { IfOk result (λ names. names ≡ names_of (channels_of design.now)) }
{
    let mut names = Items::new(alloc);
    let mut left = channel_ports(design);
    'channels: while let Some(first) = first_channel(left) {
        names.push(Items::from_slice(alloc, channel_name(first.data))?)?;
        left = first.rest;
    }
    Ok(names)
}

/// The ports of a module's channels.
fn channel_ports(design: &VModule) -> &[Port]
    ensures { result.now ≡ drop 2 design.now.ports }
{
    let ports = design.ports.as_slice();
    if ports.len() < 2 {
        &ports[ports.len()..]
    } else {
        &ports[2..]
    }
}

/// The data port of a channel, and the ports behind the channel.
#[derive(Clone, Copy)]
struct First<'a> {
    data: &'a Port,
    rest: &'a [Port],
}

/// The first channel of these ports.
fn first_channel(left: &[Port]) -> Option<First<'_>>
    ensures { MatchOption result (channels_at left.now ≡ []) (λ first. IsFirst left.now first.data.now first.rest.now) }
{
    match left {
        [data, _valid, _ready, rest @ ..] => Some(First { data, rest }),
        _ => None,
    }
}

/// Puts a number under a name that has none.
fn put_new<'a>(
    numbers: &mut BTreeMap<&'a [u8], usize>,
    name: &'a [u8],
    number: usize,
) -> Result<(), AllocError>
    ensures { OnOk result ((q : List ℕ) → number_in numbers.new q ≡ or_else (number_in numbers.old q) (if bytes_eq name.entry.now q then Some number else None)) }
{
    if numbers.get(name).is_none() {
        numbers.insert(name, number)?;
    }
    Ok(())
}

/// The name of a channel by its data port.
fn channel_name(data: &Port) -> &[u8]
    ensures { result.now ≡ (channel_of data.now).name }
{
    let bytes = data.name.as_str().as_bytes();
    &bytes[..bytes.len().saturating_sub(5)]
}

/// The shape of a channel by its data port.
fn shape_of(data: &Port) -> Shape
    ensures { result ≡ shape_of (channel_of data.now) }
{
    Shape {
        direction: data.direction,
        width: data.width,
    }
}

/// The width of a channel's words.
fn word_width(width: u64) -> u64
    ensures least { 1 ≤ result }
    ensures most { result ≤ 128 }
    ensures is { result ≡ word_width width }
{
    width.clamp(1, 128)
}

fn is_direction(one: Direction, other: Direction) -> bool
    ensures { result ≡ is_direction one other }
{
    match one {
        Direction::Input => matches!(other, Direction::Input),
        Direction::Output => matches!(other, Direction::Output),
    }
}
