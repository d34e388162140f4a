use crate::{Arm, CoreExpr};
use base::texts::Name;
use dslx_meaning::DslxType;
use xb_value::Boxed;

/// A core expression, and the type of its values. It is boxed, as it is where it is a part of another.
#[derive(Drop)]
pub struct LoweredExpr {
    pub core: Boxed<CoreExpr>,
    pub ty: DslxType,
}

/// An arm, and the type of its value.
#[derive(Drop)]
pub struct LoweredArm {
    pub arm: Arm,
    pub ty: DslxType,
}

/// A name that is bound: the number of its value among those that are bound, and its type.
#[derive(Drop)]
pub struct BoundSlot {
    pub name: Name,
    pub slot: u64,
    pub ty: DslxType,
}
