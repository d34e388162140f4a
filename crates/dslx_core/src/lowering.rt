//! Which core expression an expression of a text is lowered to, and that lowering preserves its value.
//!
//! `specs/Lowering/Trees` has what each tree is lowered to in a scope, with the type of its values; `specs/Lowering/Functions` has it of the instances
//! of functions. The laws say that, wherever the text's expression has a value, what it is lowered to has the same one without
//! signs and names. They don't ask whether the text breaks a rule.
mod expr;
mod expressions;
mod instance;
mod instances;
mod next;
mod steps;

pub use expr::{BoundSlot, LoweredArm, LoweredExpr};
pub use expressions::lower_preserves_expressions;
pub use instance::{CoreCallee, CoreInstance, Instantiated, LoweredFunction};
pub use instances::lower_preserves_instances;
pub use next::{CoreMember, LoweredNext, LoweredSteps};
pub use steps::lower_preserves_steps;
