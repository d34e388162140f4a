//! Parametrics of an instance.

ghost use Rattle.std.specs.Prelude.{◌≡◌, ℕ, List, IfOk, slice_get};
ghost use Rattle.std.specs.Option.{option_copied};
ghost use Rattle.dslx_meaning.specs.Lists.{is_in};
ghost use Rattle.dslx_meaning.specs.Rules.ItemRules as the;
ghost use Rattle.dslx_check_declarations.specs.Scopes.{outside};
ghost use Rattle.dslx_check_facts.specs.Walks.{shown};
ghost use Rattle.dslx_check_judge.specs.Instances.Inner.Found.{JudgesAgainst, JudgesFound};
ghost use Rattle.dslx_check_judge.specs.Instances.Inner.Parametrics.{ParametricsWalked, parametric_found};

use dslx_check_declarations::{NamesBefore, bind_if};
use dslx_check_facts::{Facts, TypeEnv, Walk, local_name};
use dslx_check_parts::{constant, inner_type};
use dslx_check_rules::{Faults, TypeId, wanted_faults};
use dslx_meaning::DslxValue;
use dslx_tree::{Expr, Parametric};
use std::alloc::AllocError;

/// The faults of all parametrics, which are in scope behind this with these values. Each type and default sees those before it.
pub(crate) fn parametrics_seen<'a>(
    f: &Facts<'a>,
    w: &mut Walk,
    s: &mut TypeEnv<'a>,
    parametrics: &'a [Parametric],
    values: &[DslxValue],
) -> Result<Faults, AllocError>
    ensures { IfOk result (λ faults. (item : ℕ) → s.old ≡ outside item → ParametricsWalked f.now item s.new (shown w.old) (shown w.new) faults parametrics.now values.now) }
{
    let mut before = NamesBefore::new(f.alloc);
    let mut faults = Faults::none();
    'parametrics: for i in 0..parametrics.len() {
        let parametric = &parametrics[i];
        let is_before = before.has(&parametric.name.name);
        let own = parametric_seen(f, w, s, is_before, parametric)?;
        faults = faults.and(own);
        let value = value_at(values, i);
        bind_if(f, w, s, parametric, value)?;
        before.put(&parametric.name.name)?;
    }
    Ok(faults)
}

fn value_at(values: &[DslxValue], at: usize) -> Option<&DslxValue>
    ensures { option_copied result ≡ slice_get values.now at }
{
    values.get(at)
}

fn parametric_seen<'a>(
    f: &Facts<'a>,
    w: &mut Walk,
    s: &mut TypeEnv<'a>,
    is_before: bool,
    parametric: &'a Parametric,
) -> Result<Faults, AllocError>
    ensures { IfOk result (λ faults. (before : List (List ℕ)) → is_before ≡ is_in parametric.now.name.name before
        → JudgesFound f.now s.old s.new (shown w.old) (shown w.new) faults (parametric_found before parametric.now)) }
{
    let name = local_name(f, is_before, &parametric.name);
    let ty = inner_type(f, w, s, &parametric.ty)?;
    let default = default_faults(f, w, s, ty.ty, &parametric.default)?;
    Ok(name.and(ty.faults).and(default))
}

/// A default is of the parametric's type.
fn default_faults<'a>(
    f: &Facts<'a>,
    w: &mut Walk,
    s: &mut TypeEnv<'a>,
    wanted: Option<TypeId>,
    default: &'a Option<Expr>,
) -> Result<Faults, AllocError>
    ensures { IfOk result (λ faults. JudgesAgainst f.now s.old s.new (shown w.old) (shown w.new) faults wanted (λ t context. the.default_found context t default.now)) }
{
    match default {
        None => Ok(Faults::none()),
        Some(e) => {
            let found = constant(f, w, s, e)?;
            let wrong = wanted_faults(&w.types, e.span, wanted, found.typing.ty);
            Ok(found.typing.faults.and(wrong))
        }
    }
}
