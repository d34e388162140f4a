use crate::expr::{CoreExpr, Shape};
use xb_value::Ty;

/// A step of an activation. What it binds stands behind the values that are bound so far, of which the state is the first.
#[derive(Drop)]
pub enum Step {
    /// Binds the parts of an expression's value.
    Bind(CoreExpr, Shape),
    Receive(Receive),
    Send(Send),
}

/// Receives a word of the type at the member of the number, and binds a token and the word. Where there is a condition that
/// doesn't hold, it binds a token and the value beside it, and receives nothing.
#[derive(Drop)]
pub struct Receive {
    pub member: u64,
    pub word: Ty,
    pub condition: Option<(CoreExpr, CoreExpr)>,
    pub shape: Shape,
}

/// Sends the flat word of a value at the member of the number, and binds a token. Where there is a condition that doesn't hold,
/// it sends nothing.
#[derive(Drop)]
pub struct Send {
    pub member: u64,
    pub condition: Option<CoreExpr>,
    pub word: CoreExpr,
    pub shape: Shape,
}
