//! Instances of functions.

ghost use Rattle.std.specs.Prelude.{IfOk};
ghost use Rattle.dslx_meaning.specs.Rules.ItemRules.{result_typing};
ghost use Rattle.dslx_check_facts.specs.Walks.{shown};
ghost use Rattle.dslx_check_leaves.specs.Walked.{JudgesPart};
ghost use Rattle.dslx_check_judge.specs.Instances.Inner.Instances.{JudgesFunction};

use crate::instances::arguments::{arguments_seen, bind_arguments};
use crate::instances::bodies::body_seen;
use crate::instances::parametrics::parametrics_seen;
use dslx_check_facts::{Facts, TypeEnv, Walk};
use dslx_check_parts::type_expr;
use dslx_check_rules::{Faults, Typing};
use dslx_meaning::DslxValue;
use dslx_tree::{Function, TypeExpr};
use std::alloc::AllocError;

/// What an instance comes to, but for what it reaches, which stands in the walk: its faults, and how many nodes its body has. A proc has no
/// body.
#[derive(Clone, Copy)]
pub struct InstanceSeen {
    pub faults: Faults,
    pub size: Option<u32>,
}

/// An instance of a function.
pub(crate) fn function_seen<'a>(
    f: &Facts<'a>,
    w: &mut Walk,
    item: u32,
    function: &'a Function,
    values: &[DslxValue],
) -> Result<InstanceSeen, AllocError>
    ensures { IfOk result (λ j. JudgesFunction f.now (shown w.old) (shown w.new) item function.now values.now j) }
{
    let mut s = TypeEnv::new(f.alloc, item);
    let parametrics = function.parametrics.as_slice();
    let fields = function.arguments.as_slice();
    let declared = parametrics_seen(f, w, &mut s, parametrics, values)?;
    let arguments = arguments_seen(f, w, &mut s, fields)?;
    let result = result_seen(f, w, &mut s, &function.result)?;
    bind_arguments(&mut s, fields, arguments.types.as_slice())?;
    let body = body_seen(f, w, &mut s, false, result.ty, &function.body)?;
    let front = declared.and(arguments.faults);
    let outside = front.and(result.faults);
    let faults = outside.and(body.faults);
    Ok(InstanceSeen {
        faults,
        size: body.size,
    })
}

/// The type of a function's result, `()` where none is written.
pub fn result_seen<'a>(
    f: &Facts<'a>,
    w: &mut Walk,
    s: &mut TypeEnv<'a>,
    written: &'a Option<TypeExpr>,
) -> Result<Typing, AllocError>
    ensures { IfOk result (λ j. JudgesPart f.now s.old s.new (shown w.old) (shown w.new) j (λ context. result_typing context written.now)) }
{
    match written {
        Some(ty) => type_expr(f, w, s, ty),
        None => {
            let ty = w.types.unit(f.alloc)?;
            Ok(Typing {
                ty: Some(ty),
                faults: Faults::none(),
                size: Some(0),
            })
        }
    }
}
