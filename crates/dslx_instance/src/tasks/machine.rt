use crate::table::InstanceTable;
use crate::tasks::body::OpenBody;
use base::stacks::Stack;
use dslx_core::lowering::Instantiated;
use dslx_meaning::DslxType;
use dslx_tree::Module;
use xb_value::Seq;

/// An instance while its body is lowered.
#[derive(Drop)]
pub struct OpenInstance<'a> {
    pub instance: Instantiated,
    pub arguments: Seq<DslxType>,
    pub body: OpenBody<'a>,
}

/// The state of the machine: what it lowers, and the instances that are open for it, the last one first.
#[derive(Drop)]
pub struct InstanceMachine<'a> {
    pub text: &'a Module,
    /// The instances that are done.
    pub table: InstanceTable,
    /// How many may be open at once.
    pub limit: usize,
    pub root: OpenBody<'a>,
    pub opened: Stack<OpenInstance<'a>>,
}
