use crate::table::InstanceTable;
use dslx_meaning::names::Binding;
use dslx_scope::locals::Locals;

/// Expressions of one body that are lowered one after another: the instances that are made, and what is bound.
#[derive(Drop)]
pub struct BodyWork<'a> {
    pub table: InstanceTable,
    /// The parametrics, in order.
    pub given: Vec<Binding<'a>>,
    pub locals: Locals,
    pub count: u64,
}
