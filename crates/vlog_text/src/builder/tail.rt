use vlog_tree::{Atom, Binary, Order, Signal, Simple};

/// What stands behind the first name or literal of an expression.
#[derive(Drop)]
pub enum Tail {
    /// Nothing.
    Alone,
    /// `+ b`
    Binary(Binary, Atom),
    /// `[high:low]`
    Slice(u64, u64),
    /// `? a : b`
    Choice(Simple, Simple),
    /// `< $signed(b)` behind `$signed(a)`
    SignedOrder(Order, Signal),
    /// `>>> b` behind `$signed(a)`
    SignedShift(Atom),
}
