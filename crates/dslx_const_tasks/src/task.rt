ghost use Rattle.std.specs.Prelude.{◌≡◌, [], IfOk};
ghost use Rattle.dslx_const_tasks.specs.Plain.{plain_task, plain_value_task, plain_list_task, plain_choice_task, plain_type_task, plain_call_task, plain_sequel};

use base::stacks::Stack;
use base::texts::Name;
use dslx_meaning::names::Scope;
use dslx_meaning::{BitKind, DslxType, DslxValue, SignedWord, UntypedLiteral};
use dslx_tree::{
    Arg, Arm, Binary, Block, Expr, Field, FieldValue, For, Function, Parametric, Pattern, Prefix,
    Stmt, Struct, TypeExpr,
};
use dslx_values::inference::Inference;
use std::alloc::{AllocError, Global};
use xb_bits::Bits;
use xb_value::{Boxed, Seq};

/// What was found last.
#[derive(Drop)]
pub enum Found {
    Value(Option<DslxValue>),
    Type(Option<DslxType>),
    /// A size or a bound.
    Count(Option<u128>),
}

/// What is made of one value.
#[derive(Drop)]
pub enum OneMaker<'a> {
    Prefix(Prefix),
    Field(&'a Name),
    Element(u128),
    Cast(DslxType),
    /// The bits from one to before another.
    Slice(u128, u128),
}

/// What is made of two values.
#[derive(Clone, Copy)]
pub enum PairMaker {
    Binary(Binary),
    Index,
    /// So many bits.
    Part(u128),
}

/// What is made of several values.
#[derive(Drop)]
pub enum ListMaker<'a> {
    Tuple,
    Array,
    /// So many of a type, the last one repeated if the text says so.
    Fill(DslxType, u128, bool),
    /// A call of this name with these parametric arguments.
    Call(&'a Name, Vec<DslxValue>),
}

/// Patterns, and the values that they are to fit.
#[derive(Drop)]
pub struct Waiting<'a> {
    pub patterns: &'a [Pattern],
    pub values: Stack<DslxValue>,
}

/// What comes behind a pattern.
#[derive(Drop)]
pub enum Sequel<'a> {
    /// The statements and the last expression of a block.
    Statements(&'a [Stmt], &'a Option<Boxed<Expr>>),
    /// A turn of a loop: the pattern of what is accumulated, that, and the body.
    Accumulator(&'a Pattern, DslxValue, &'a Block),
    /// The body of a turn, behind as many names of the index.
    Body(usize, &'a Block),
    /// An arm; else its other patterns, and the arms behind it.
    Arm(&'a [Pattern], &'a Arm, &'a [Arm], DslxValue),
}

/// A value that is fitted to a pattern: what is still to fit, what the pattern binds so far, and what comes behind.
#[derive(Drop)]
pub struct Fitting<'a> {
    pub work: Stack<Waiting<'a>>,
    pub names: Scope<'a>,
    pub next: Boxed<Sequel<'a>>,
}

impl<'a> Fitting<'a> {
    /// Nothing is bound yet, and nothing else is to fit.
    pub fn new(alloc: Global, next: Sequel<'a>) -> Result<Fitting<'a>, AllocError>
        ensures { IfOk result (λ fitting. (fitting.work ≡ []) × (fitting.names ≡ []) × (plain_sequel fitting.next ≡ plain_sequel next.entry)) }
    {
        Ok(Fitting {
            work: Stack::new(alloc),
            names: Scope::new(alloc),
            next: Boxed::new(alloc, next)?,
        })
    }
}

/// The fields of a struct value, while they are found.
#[derive(Drop)]
pub struct Fields<'a> {
    pub name: Name,
    pub names: Seq<Name>,
    pub values: Vec<DslxValue>,
    pub written: &'a [FieldValue],
    /// The value that gives those that aren't written.
    pub rest: Option<DslxValue>,
}

/// A call, while its parametrics are found and its operands bound.
#[derive(Drop)]
pub struct Call<'a> {
    pub function: &'a Function,
    pub given: Stack<DslxValue>,
    pub inferred: Vec<Inference<'a>>,
    pub operands: Stack<DslxValue>,
    pub bound: Scope<'a>,
    pub left: u64,
}

/// What is still to be done. References to trees are dear to the prover, so each group of tasks stands behind one of its own.
#[derive(Drop)]
pub enum Task<'a> {
    Eval(&'a Expr),
    Value(Boxed<ValueTask<'a>>),
    List(Boxed<ListTask<'a>>),
    Choice(Boxed<ChoiceTask<'a>>),
    Type(Boxed<TypeTask<'a>>),
    Call(Boxed<CallTask<'a>>),
}

impl<'a> Task<'a> {
    /// A task of a block or an operation.
    pub fn value(alloc: Global, task: ValueTask<'a>) -> Result<Task<'a>, AllocError>
        ensures { IfOk result (λ made. plain_task made ≡ plain_value_task task.entry) }
    {
        Ok(Task::Value(Boxed::new(alloc, task)?))
    }

    /// A task of several values.
    pub fn list(alloc: Global, task: ListTask<'a>) -> Result<Task<'a>, AllocError>
        ensures { IfOk result (λ made. plain_task made ≡ plain_list_task task.entry) }
    {
        Ok(Task::List(Boxed::new(alloc, task)?))
    }

    /// A task of a match or a loop.
    pub fn choice(alloc: Global, task: ChoiceTask<'a>) -> Result<Task<'a>, AllocError>
        ensures { IfOk result (λ made. plain_task made ≡ plain_choice_task task.entry) }
    {
        Ok(Task::Choice(Boxed::new(alloc, task)?))
    }

    /// A task of a type, a size or a bound.
    pub fn ty(alloc: Global, task: TypeTask<'a>) -> Result<Task<'a>, AllocError>
        ensures { IfOk result (λ made. plain_task made ≡ plain_type_task task.entry) }
    {
        Ok(Task::Type(Boxed::new(alloc, task)?))
    }

    /// A task of a call.
    pub fn call(alloc: Global, task: CallTask<'a>) -> Result<Task<'a>, AllocError>
        ensures { IfOk result (λ made. plain_task made ≡ plain_call_task task.entry) }
    {
        Ok(Task::Call(Boxed::new(alloc, task)?))
    }
}

/// Of blocks and operations. "The value" is what was found last.
#[derive(Drop)]
pub enum ValueTask<'a> {
    Block(&'a Block),
    Statements(&'a [Stmt], &'a Option<Boxed<Expr>>),
    /// Takes the value apart for the rest of a block.
    Bind(&'a Pattern, &'a [Stmt], &'a Option<Boxed<Expr>>),
    /// Goes on without the value.
    Pass(&'a [Stmt], &'a Option<Boxed<Expr>>),
    /// The number of the type.
    Number(UntypedLiteral),
    MakeOne(OneMaker<'a>),
    /// Finds the right value, the value being the left one.
    FindRight(PairMaker, &'a Expr),
    MakePair(PairMaker, DslxValue),
    /// Bits of the type, from the second one's value on.
    TakePart(&'a Expr, &'a Expr),
    Cast(&'a Expr),
    /// Finds the end of a slice.
    FindEnd(&'a Expr, &'a Expr),
    Slice(&'a Expr, u128),
    Choose(&'a Block, &'a Expr),
}

/// Of several values.
#[derive(Drop)]
pub enum ListTask<'a> {
    Elements(&'a [Expr], bool),
    /// The value is the next one behind these.
    Gather(Vec<DslxValue>, &'a [Expr], ListMaker<'a>),
    GatherParametricArgs(Vec<DslxValue>, &'a [Arg], &'a Name, &'a [Expr]),
    FindFields(&'a [FieldValue], &'a Option<Boxed<Expr>>),
    /// The value gives the fields that aren't written.
    TakeRest(Name, Seq<Name>, &'a [FieldValue]),
    GatherFields(Fields<'a>),
}

/// Of patterns, matches and loops.
#[derive(Drop)]
pub enum ChoiceTask<'a> {
    Select(&'a [Arm]),
    /// The patterns that are left of an arm, the arm, those behind it, and the value.
    Try(&'a [Pattern], &'a Arm, &'a [Arm], DslxValue),
    /// An expression behind patterns that may bind nothing.
    BindNothing(Stack<&'a [Pattern]>, &'a Expr),
    Fit(Fitting<'a>),
    /// The value is to be this one.
    Compare(DslxValue, Fitting<'a>),
    Forget(usize),
    StartLoop(&'a For),
    FindFirst(&'a For, DslxValue),
    FindLast(&'a For, DslxValue, SignedWord),
    /// So many turns, from an index on.
    Turn(&'a For, bool, u128, Bits),
}

/// Of types, sizes and bounds.
#[derive(Drop)]
pub enum TypeTask<'a> {
    Find(&'a TypeExpr),
    MakeBits(bool),
    FindSize(&'a Expr),
    MakeArray(DslxType),
    Gather(Vec<DslxType>, &'a [TypeExpr]),
    GatherFields(Vec<DslxType>, &'a [Field], &'a Struct),
    MakeEnum(&'a Name),
    FindMember(&'a Expr, &'a Name),
    MakeMember(BitKind, &'a Name),
    CountSize(&'a Expr),
    TakeSize,
    CountBound(&'a Expr),
    TakeBound,
}

/// Of calls.
#[derive(Drop)]
pub enum CallTask<'a> {
    FindParametrics(Call<'a>, &'a [Parametric]),
    GiveParametric(Call<'a>, &'a Parametric, &'a [Parametric]),
    GiveOperands(Call<'a>, &'a [Field]),
    /// Back to what is bound elsewhere, and how long a chain of uses may be there.
    Return(Scope<'a>, u64),
}
