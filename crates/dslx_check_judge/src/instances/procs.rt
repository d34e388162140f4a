//! Instances of procs, and of what an item is.

ghost use Rattle.std.specs.Prelude.{◌≡◌, ◌+◌, ℕ, IfOk, min, if◌then◌else◌};
ghost use Rattle.dslx_tree.specs.declared.block.Stmt.{out-Stmt};
ghost use Rattle.dslx_meaning.specs.Rules.ProcRules as the;
ghost use Rattle.dslx_check_facts.specs.Walks.{shown};
ghost use Rattle.dslx_check_judge.specs.Instances.Inner.Instances.{JudgesActivity, JudgesProc, is_site as is_site_of};
ghost use Rattle.dslx_check_judge.specs.Instances.Judged.{JudgesInstance};

use crate::instances::bodies::body_seen;
use crate::instances::channels::ends_seen;
use crate::instances::config::config_faults;
use crate::instances::functions::{InstanceSeen, function_seen};
use crate::instances::parametrics::parametrics_seen;
use dslx_check_declarations::bind_members;
use dslx_check_facts::{Facts, TypeEnv, Walk, local_name};
use dslx_check_leaves::is_effect;
use dslx_check_parts::type_expr;
use dslx_check_rules::nodes::both;
use dslx_check_rules::{Faults, TypeId};
use dslx_meaning::DslxValue;
use dslx_tree::{Definition, Proc, Stmt};
use std::alloc::AllocError;
use xb_span::What;

/// An instance of a function or a proc with these parametric arguments. Another item comes to nothing.
pub fn instance_seen<'a>(
    f: &Facts<'a>,
    w: &mut Walk,
    item: u32,
    definition: &'a Definition,
    values: &[DslxValue],
) -> Result<InstanceSeen, AllocError>
    ensures { IfOk result (λ j. JudgesInstance f.now (shown w.old) (shown w.new) item definition.now values.now j) }
{
    match definition {
        Definition::Function(function) => function_seen(f, w, item, function, values),
        Definition::Proc(process) => proc_seen(f, w, item, process, values),
        _ => Ok(InstanceSeen {
            faults: Faults::none(),
            size: None,
        }),
    }
}

/// An instance of a proc.
fn proc_seen<'a>(
    f: &Facts<'a>,
    w: &mut Walk,
    item: u32,
    process: &'a Proc,
    values: &[DslxValue],
) -> Result<InstanceSeen, AllocError>
    ensures { IfOk result (λ j. JudgesProc f.now (shown w.old) (shown w.new) item process.now values.now j) }
{
    let mut s = TypeEnv::new(f.alloc, item);
    let declared = parametrics_seen(f, w, &mut s, process.parametrics.as_slice(), values)?;
    let members = ends_seen(f, w, &mut s, process.members.as_slice())?;
    let config = config_faults(f, w, &mut s, process, members.ends.as_slice())?;
    let state = type_expr(f, w, &mut s, &process.next.ty)?;
    bind_members(&mut s, members.ends.as_slice())?;
    let inside = activity_faults(f, w, &mut s, process, state.ty)?;
    let front = declared.and(members.faults);
    let wired = front.and(config);
    let outside = wired.and(state.faults);
    let faults = outside.and(inside);
    Ok(InstanceSeen { faults, size: None })
}

/// What `init` and `next` break, where the state has this type and the members are in scope; and the limit on sites.
fn activity_faults<'a>(
    f: &Facts<'a>,
    w: &mut Walk,
    s: &mut TypeEnv<'a>,
    process: &'a Proc,
    state: Option<TypeId>,
) -> Result<Faults, AllocError>
    ensures { IfOk result (λ faults. JudgesActivity f.now s.old (shown w.old) (shown w.new) faults process.now state) }
{
    let next = &process.next;
    let init = body_seen(f, w, s, false, state, &process.init)?;
    let name = local_name(f, false, &next.state);
    s.locals.bind(&next.state.name, state)?;
    let body = body_seen(f, w, s, true, state, &next.body)?;
    let sites = count_sites(next.body.statements.as_slice());
    let limit = Faults::passes_count(What::Sites, 32, process.span.to, sites);
    Ok(init.faults.and(name).and(body.faults).and(limit))
}

/// How many sites are among these statements, counted up to one more than there may be.
fn count_sites(statements: &[Stmt]) -> u64
    ensures { result ≡ min 33 (the.count_sites statements.now) }
{
    let mut sites = 0;
    'statements: for statement in statements {
        let is_one = is_site(statement);
        sites = and_site(sites, is_one);
    }
    sites
}

/// With one site more, if there is one.
fn and_site(sites: u64, is_one: bool) -> u64
    ensures { (n : ℕ) → sites ≡ min 33 n → result ≡ min 33 (n + (if is_one then 1 else 0)) }
{
    let counts = both(is_one, sites < 33);
    if counts { sites + 1 } else { sites }
}

fn is_site(statement: &Stmt) -> bool
    ensures { result ≡ is_site_of (out-Stmt statement.now) }
{
    match statement {
        Stmt::Let(own) => is_effect(&own.value),
        Stmt::Bare(e) => is_effect(e),
    }
}
