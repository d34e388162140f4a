use crate::Instance;
use base::texts::Name;
use dslx_meaning::DslxValue;
use xb_value::Seq;

/// An instance of a proc by its name and its parametric arguments.
#[derive(Drop)]
pub struct ProcInstance {
    pub name: Name,
    pub parametric_args: Seq<DslxValue>,
    pub instance: Instance,
}
