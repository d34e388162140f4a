use crate::eval::operation::Operation;
use dslx_core::{Arm, CoreExpr, Shape};
use xb_bits::Bits;
use xb_value::Value;

/// What is still to be done. "The top" is that of the values that were found.
#[derive(Drop)]
pub(crate) enum Task<'a> {
    /// Finds the value of an expression.
    Eval(&'a CoreExpr),
    /// Finds the values of these, in order.
    EvalEach(&'a [CoreExpr]),
    /// Puts a value in place of those on the top that it is made of.
    Operate(Operation),
    /// Binds the parts of the top for an expression, whose value takes its place.
    Bind(&'a Shape, &'a CoreExpr),
    /// Finds the first expression's value where the top is 1, else the second one's.
    Choose(&'a CoreExpr, &'a CoreExpr),
    /// Finds the value of the first arm that fits the top, else that of the last one.
    Select(&'a [Arm]),
    /// So many turns from an index on, the top being what is accumulated.
    Turn(u64, Bits, &'a Shape, &'a Shape, &'a CoreExpr),
    /// Calls the function of this number with so many of the top.
    Call(u64, usize),
    /// Forgets what was bound behind so many.
    Forget(usize),
    /// Goes back to what was bound in a caller, and to how many functions may be called there.
    Return(Vec<Value>, u64),
}
