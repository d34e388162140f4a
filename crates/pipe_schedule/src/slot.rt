//! Where in a pipeline a node's value is ready.

ghost use Rattle.std.specs.Prelude.{◌≡◌, ◌-◌, ◌<◌, ◌^◌};
ghost use Rattle.pipe_schedule.specs.Inner.Slots.{later, slotted, lowest, raised};

use ir_tree::Role;

/// The stage in which a node stands, and how many picoseconds into its cycle the node's value is ready.
#[derive(Clone, Copy)]
pub struct Slot {
    pub stage: u64,
    pub time: u32,
}

impl Slot {
    /// The later of the two.
    pub fn later(self, other: Slot) -> Slot
        ensures { result ≡ later self other }
    {
        if self.stage < other.stage {
            other
        } else if other.stage < self.stage {
            self
        } else {
            Slot {
                stage: self.stage,
                time: self.time.max(other.time),
            }
        }
    }

    /// Where a node is ready that may start here and takes so long: in this stage if there is time left, else in the next.
    pub fn place(self, clock: u32, delay: u32) -> Slot
        requires { self.stage < 2 ^ 64 - 1 }
        ensures { result ≡ slotted clock delay self }
    {
        if u64::from(self.time) + u64::from(delay) <= u64::from(clock) {
            Slot {
                stage: self.stage,
                time: self.time + delay,
            }
        } else {
            Slot {
                stage: self.stage + 1,
                time: delay,
            }
        }
    }
}

/// The earliest stages that the sites before leave to a send and to a receive.
#[derive(Clone, Copy)]
pub struct Floor {
    pub send: u64,
    pub receive: u64,
}

impl Floor {
    /// Where a node of this role may start, as far as the sites before it go.
    pub fn start(self, role: Role) -> Slot
        ensures { result ≡ record { stage = lowest self role; time = 0 } }
    {
        let stage = match role {
            Role::Pure => 0,
            Role::Receive(_, _) => self.receive,
            Role::Send(_, _) => self.send,
        };
        Slot { stage, time: 0 }
    }

    /// What is left behind a node of this role that stands in a stage.
    pub fn raise(self, role: Role, stage: u64) -> Floor
        requires { stage < 2 ^ 64 - 1 }
        ensures { result ≡ raised self role stage }
    {
        match role {
            Role::Pure => self,
            Role::Receive(_, _) => Floor {
                send: stage,
                receive: stage,
            },
            Role::Send(_, _) => Floor {
                send: stage,
                receive: stage + 1,
            },
        }
    }
}
