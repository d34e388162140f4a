use crate::lowering::expr::LoweredExpr;
use crate::{CoreExpr, Step};
use dslx_meaning::DslxType;
use xb_value::Seq;

/// A member of a proc: its number, and the type of the words there.
#[derive(Drop)]
pub struct CoreMember {
    pub number: u64,
    pub word: DslxType,
}

/// Steps, and the state behind them.
#[derive(Drop)]
pub struct LoweredSteps {
    pub steps: Seq<Step>,
    pub next: LoweredExpr,
}

/// What the `next` of an instance of a proc is lowered to: the state's type, the steps of an activation, and the state behind them.
#[derive(Drop)]
pub struct LoweredNext {
    pub state: DslxType,
    pub steps: Seq<Step>,
    pub next: CoreExpr,
}
