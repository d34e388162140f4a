ghost use Rattle.std.specs.Prelude.{◌≡◌, IfOk};
ghost use Rattle.dslx_instance.specs.Tasks.Shown.{arms_task_shown, block_task_shown, call_task_shown, loop_task_shown, parts_task_shown, task_shown};

use crate::tasks::maker::{LastMaker, PartsMaker};
use base::stacks::Stack;
use base::texts::Name;
use dslx_core::Shape;
use dslx_core::lowering::{Instantiated, LoweredArm, LoweredExpr};
use dslx_meaning::{DslxType, SignedWord};
use dslx_tree::{Arm, Block, Expr, FieldValue, For, Pattern, Stmt};
use std::alloc::{AllocError, Global};
use xb_value::{Boxed, Seq};

/// The value that has the fields of a struct that aren't written: the number under which it is bound, and its type.
#[derive(Drop)]
pub struct OtherFields {
    pub slot: u64,
    pub ty: DslxType,
}

/// A struct value of a type, while its fields are lowered.
#[derive(Drop)]
pub struct StructWork<'a> {
    pub ty: DslxType,
    pub written: &'a [FieldValue],
    pub others: Option<OtherFields>,
}

/// A match on a value, while an arm of it is lowered: the arms before, this one, and those behind.
#[derive(Drop)]
pub struct MatchWork<'a> {
    pub value: LoweredExpr,
    pub before: Vec<LoweredArm>,
    pub arm: &'a Arm,
    pub behind: &'a [Arm],
}

/// What is still to be done.
#[derive(Drop)]
pub enum LowerTask<'a> {
    Expr(&'a Expr),
    Block(Boxed<BlockTask<'a>>),
    /// Binds this value, taken apart so, for what was made last.
    Bind(Boxed<LoweredExpr>, Shape),
    Parts(Boxed<PartsTask<'a>>),
    Arms(Boxed<ArmsTask<'a>>),
    Loop(Boxed<LoopTask<'a>>),
    /// So many names are left, and so many values are bound.
    Restore(usize, u64),
    Call(Boxed<CallTask>),
}

/// Of blocks, and of operations on what was made last.
#[derive(Drop)]
pub enum BlockTask<'a> {
    Block(&'a Block),
    Statements(&'a [Stmt], &'a Option<Boxed<Expr>>),
    Make(LastMaker<'a>),
    /// Takes what was made last apart for the rest of a block.
    BindValue(&'a Pattern, &'a [Stmt], &'a Option<Boxed<Expr>>),
}

/// Of several expressions.
#[derive(Drop)]
pub enum PartsTask<'a> {
    /// What was made last is the next one behind these.
    Gather(Vec<LoweredExpr>, &'a [Expr], PartsMaker<'a>),
    /// What was made last has the fields of a struct that aren't written.
    TakeOthers(DslxType, Stack<Name>, Stack<DslxType>, &'a [FieldValue]),
    /// What was made last is a field of this type behind these; the names and types of those that are left.
    GatherFields(StructWork<'a>, Vec<LoweredExpr>, DslxType, Stack<Name>, Stack<DslxType>),
}

/// Of matches.
#[derive(Drop)]
pub enum ArmsTask<'a> {
    Arms(&'a [Arm]),
    /// What was made last is the value of an arm of these shapes.
    TakeArm(MatchWork<'a>, Seq<Shape>),
}

/// Of loops.
#[derive(Drop)]
pub enum LoopTask<'a> {
    Begin(&'a For),
    /// A loop from its start, its bounds, and what an index and what is accumulated bind.
    Make(LoweredExpr, SignedWord, SignedWord, Shape, Shape),
}

/// Of calls.
#[derive(Drop)]
pub enum CallTask {
    /// An instance is to be done.
    Need(Instantiated),
    Call(Instantiated, Vec<LoweredExpr>),
}

impl<'a> LowerTask<'a> {
    /// A task of a block or an operation.
    pub fn block(alloc: Global, task: BlockTask<'a>) -> Result<LowerTask<'a>, AllocError>
        ensures { IfOk result (λ made. task_shown made ≡ block_task_shown task.entry) }
    {
        Ok(LowerTask::Block(Boxed::new(alloc, task)?))
    }

    /// A task of several expressions.
    pub fn parts(alloc: Global, task: PartsTask<'a>) -> Result<LowerTask<'a>, AllocError>
        ensures { IfOk result (λ made. task_shown made ≡ parts_task_shown task.entry) }
    {
        Ok(LowerTask::Parts(Boxed::new(alloc, task)?))
    }

    /// A task of a match.
    pub fn arms(alloc: Global, task: ArmsTask<'a>) -> Result<LowerTask<'a>, AllocError>
        ensures { IfOk result (λ made. task_shown made ≡ arms_task_shown task.entry) }
    {
        Ok(LowerTask::Arms(Boxed::new(alloc, task)?))
    }

    /// A task of a loop.
    pub fn turns(alloc: Global, task: LoopTask<'a>) -> Result<LowerTask<'a>, AllocError>
        ensures { IfOk result (λ made. task_shown made ≡ loop_task_shown task.entry) }
    {
        Ok(LowerTask::Loop(Boxed::new(alloc, task)?))
    }

    /// A task of a call.
    pub fn call(alloc: Global, task: CallTask) -> Result<LowerTask<'a>, AllocError>
        ensures { IfOk result (λ made. task_shown made ≡ call_task_shown task) }
    {
        Ok(LowerTask::Call(Boxed::new(alloc, task)?))
    }
}
