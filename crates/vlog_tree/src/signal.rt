ghost use Rattle.std.specs.Prelude.{◌≡◌, ◌<◌, length, slice_get, option_map, Some};
ghost use Rattle.vlog_tree.specs.Signals.{signals, declared_widths, port_role, storage_role};

use crate::module::{Declaration, Direction, Port, Storage, VModule};

/// A port or a declaration of a module by its index: the ports in order, then the declarations.
///
/// A number past both names nothing; a module with such a mention breaks the rule on undeclared names.
#[derive(Clone, Copy, PartialEq, Eq)]
pub struct Signal(pub u32);

/// Who gives a signal its value.
#[derive(Clone, Copy, PartialEq, Eq)]
pub enum Role {
    /// The outside.
    InputSignal,
    /// The one assignment to it.
    WireSignal,
    /// It holds it itself.
    RegisterSignal,
}

/// Each look-up takes the same time, however large the module is.
impl VModule {
    /// How many signals there are.
    pub fn signal_count(&self) -> usize
        ensures { result ≡ length (signals self.now) }
    {
        self.ports.as_slice().len() + self.declarations.as_slice().len()
    }

    /// The name of a signal.
    pub fn name_of(&self, signal: usize) -> &str
        requires { signal < length (signals self.now) }
        ensures { option_map (λ d. d.name) (slice_get (signals self.now) signal) ≡ Some result.now }
    {
        let ports = self.ports.as_slice();
        if signal < ports.len() {
            ports[signal].name.as_str()
        } else {
            self.declarations.as_slice()[signal - ports.len()]
                .name
                .as_str()
        }
    }

    /// Who gives a signal its value, if there is such a signal.
    pub fn role_of(&self, signal: usize) -> Option<Role>
        ensures { result ≡ option_map (λ d. d.role) (slice_get (signals self.now) signal) }
    {
        let ports = self.ports.as_slice();
        if signal < ports.len() {
            return Some(ports[signal].direction.role());
        }
        match self.declarations.get(signal - ports.len()) {
            Some(own) => Some(own.storage.role()),
            None => None,
        }
    }

    /// How many bits a signal has; 1 where there is no such signal.
    pub fn width_of(&self, signal: usize) -> u64
        ensures { result ≡ declared_widths self.now signal }
    {
        let ports = self.ports.as_slice();
        if signal < ports.len() {
            return ports[signal].width;
        }
        match self.declarations.get(signal - ports.len()) {
            Some(own) => own.width,
            None => 1,
        }
    }
}

impl Direction {
    /// Who gives a port of this direction its value.
    pub fn role(self) -> Role
        ensures { result ≡ port_role self }
    {
        match self {
            Direction::Input => Role::InputSignal,
            Direction::Output => Role::WireSignal,
        }
    }
}

impl Storage {
    /// Who gives a name of this storage its value.
    pub fn role(self) -> Role
        ensures { result ≡ storage_role self }
    {
        match self {
            Storage::Wire => Role::WireSignal,
            Storage::Register => Role::RegisterSignal,
        }
    }
}
