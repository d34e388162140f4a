use crate::CoreExpr;
use base::texts::Name;
use dslx_meaning::{DslxType, DslxValue};
use xb_value::Seq;

/// The instance that a call comes to: its number, and the type of its result.
#[derive(Drop)]
pub struct CoreCallee {
    pub number: u64,
    pub result: DslxType,
}

/// The types of an instance's arguments and of its result, and its body over the arguments.
#[derive(Drop)]
pub struct LoweredFunction {
    pub arguments: Seq<DslxType>,
    pub result: DslxType,
    pub body: CoreExpr,
}

/// A name and its parametric arguments.
#[derive(Drop)]
pub struct Instantiated {
    pub name: Name,
    pub parametric_args: Seq<DslxValue>,
}

/// An instance by its name and its parametric arguments.
#[derive(Drop)]
pub struct CoreInstance {
    pub name: Name,
    pub parametric_args: Seq<DslxValue>,
    pub function: LoweredFunction,
}
