use crate::constant::Constant;
use crate::ir_type::IrType;
use crate::operands::Operands;
use delay_model::Op;

/// What a node takes: the state with which the activation began, or the value of the node at an index in the proc's list.
#[derive(Clone, Copy, Default, PartialEq, Eq)]
pub enum Operand {
    #[default]
    State,
    Node(u32),
}

/// What stands behind the operands of a node. Which variant belongs to an operation says `Op::attribute_kind`.
#[derive(Drop)]
pub enum Attributes {
    None,
    StartAndWidth(u128, u128),
    Width(u128),
    NewBitCount(u128),
    /// The cases, and the default.
    Cases(Operands, Option<Operand>),
    Index(u128),
    Indices(Operand),
    Value(Constant),
    /// The predicate, and the channel's number.
    Channel(Option<Operand>, u32),
}

/// A line of a proc: `OP.ID: TYPE = OP(OPERANDS, ATTRIBUTES, id=ID)`.
#[derive(Drop)]
pub struct Node {
    pub id: u32,
    pub ty: IrType,
    pub op: Op,
    pub operands: Operands,
    pub attributes: Attributes,
}

/// What a node is to the outside.
#[derive(Clone, Copy, PartialEq, Eq)]
pub enum Role {
    /// Nothing.
    Pure,
    /// A receive, on under the predicate, from the channel of this number.
    Receive(Option<Operand>, u32),
    /// A send, on under the predicate, on the channel of this number.
    Send(Option<Operand>, u32),
}

impl Node {
    ghost use Rattle.std.specs.Prelude.{◌≡◌};
    ghost use Rattle.ir_tree.specs.NodeValues.{role_of};

    /// What it is to the outside.
    pub fn role(&self) -> Role
        ensures { result ≡ role_of self.now }
    {
        match (self.op, &self.attributes) {
            (Op::Receive, Attributes::Channel(predicate, channel)) => {
                Role::Receive(*predicate, *channel)
            }
            (Op::Send, Attributes::Channel(predicate, channel)) => {
                Role::Send(*predicate, *channel)
            }
            _ => Role::Pure,
        }
    }
}
