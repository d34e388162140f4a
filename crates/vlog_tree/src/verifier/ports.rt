//! The ports that a module must have.

ghost use Rattle.std.specs.Prelude.{◌≡◌, List, [], ◌∷◌, codes, length, ◌-◌, ◌≤◌, ℕ};
ghost use Rattle.vlog_tree.specs.Verifier.Ports.{is_bit_input, continues, names_data, port_fits, due_behind, may_end, same_direction, is_input};
ghost use Rattle.vlog_tree.specs.Verifier.Inner.Seen.{due_of};

use crate::{Direction, Port};

/// The port that must come next. The last two come behind the data port of their channel.
#[derive(Clone, Copy)]
pub enum Due<'a> {
    Clock,
    Reset,
    Data,
    Valid(&'a Port),
    Ready(&'a Port),
}

/// Whether a port may come next.
pub fn port_fits(due: Due<'_>, port: &Port) -> bool
    ensures { result ≡ port_fits (due_of due.entry) port.now }
{
    match due {
        Due::Clock => is_bit_input("clk", port),
        Due::Reset => is_bit_input("rst", port),
        Due::Data => names_data(port.name.as_str()),
        Due::Valid(first) => {
            belongs(first, "_vld", port)
                && same_direction(first.direction, port.direction)
                && port.width == 1
        }
        Due::Ready(first) => {
            belongs(first, "_rdy", port)
                && !same_direction(first.direction, port.direction)
                && port.width == 1
        }
    }
}

/// What must come next behind a port.
pub fn due_behind<'a>(due: Due<'a>, port: &'a Port) -> Due<'a>
    ensures { due_of result ≡ due_behind (due_of due.entry) port.now }
{
    match due {
        Due::Clock => Due::Reset,
        Due::Reset => Due::Data,
        Due::Data => Due::Valid(port),
        Due::Valid(first) => Due::Ready(first),
        Due::Ready(_) => Due::Data,
    }
}

/// Whether the ports may end here.
pub fn may_end(due: Due<'_>) -> bool
    ensures { result ≡ may_end (due_of due.entry) }
{
    match due {
        Due::Data => true,
        _ => false,
    }
}

fn same_direction(one: Direction, other: Direction) -> bool
    ensures { result ≡ same_direction one other }
{
    match one {
        Direction::Input => is_input(other),
        Direction::Output => !is_input(other),
    }
}

fn is_input(direction: Direction) -> bool
    ensures { result ≡ is_input direction }
{
    match direction {
        Direction::Input => true,
        Direction::Output => false,
    }
}

/// Whether it is an input of one bit with this name.
fn is_bit_input(name: &str, port: &Port) -> bool
    ensures { result ≡ is_bit_input name.now port.now }
{
    port.name.as_str() == name && is_input(port.direction) && port.width == 1
}

/// Whether a name is something and then `_data`.
fn names_data(name: &str) -> bool
    ensures { result ≡ names_data name.now }
{
    let name = name.as_bytes();
    name.len() > 5 && &name[name.len() - 5..] == b"_data".as_slice()
}

/// Whether a port has the name of the channel of a data port, and then this end.
fn belongs(data_port: &Port, end: &str, port: &Port) -> bool
    ensures { result ≡ continues (length data_port.now.name - 5) data_port.now.name end.now port.now.name }
{
    let base = data_port.name.as_str().as_bytes();
    let name = port.name.as_str().as_bytes();
    continues(base.len().saturating_sub(5), base, end.as_bytes(), name)
}

/// Whether a text is the first `count` bytes of another, and then the end.
fn continues(count: usize, base: &[u8], end: &[u8], text: &[u8]) -> bool
    requires { count ≤ length base.now }
    ensures { result ≡ continues count base.now end.now text.now }
{
    count <= text.len() && &text[..count] == &base[..count] && &text[count..] == end
}
