//! Ends of channels.

ghost use Rattle.std.specs.Prelude.{IfOk};
ghost use Rattle.dslx_meaning.specs.Rules.ProcRules as the;
ghost use Rattle.dslx_check_facts.specs.Walks.{shown};
ghost use Rattle.dslx_check_leaves.specs.Walked.{JudgesPart};
ghost use Rattle.dslx_check_judge.specs.Instances.Inner.Bodies.{JudgesEnds};
ghost use Rattle.dslx_check_judge.specs.Instances.Inner.Found.{JudgesFound};

use dslx_check_declarations::{NamedEnd, NamesBefore, depth_limit, named_end};
use dslx_check_facts::{Facts, TypeEnv, Walk, local_name};
use dslx_check_parts::{count, inner_type};
use dslx_check_rules::{Faults, Typing, word_limit};
use dslx_tree::{Arg, End, TypeExpr};
use std::alloc::AllocError;

/// A list of ends: its faults, and the ends.
#[derive(Drop)]
pub(crate) struct EndsSeen<'a> {
    pub(crate) faults: Faults,
    pub(crate) ends: Vec<NamedEnd<'a>>,
}

/// The type of a channel's words. The limit on them stands at it.
pub(crate) fn channel_type<'a>(
    f: &Facts<'a>,
    w: &mut Walk,
    s: &mut TypeEnv<'a>,
    ty: &'a TypeExpr,
) -> Result<Typing, AllocError>
    ensures { IfOk result (λ j. JudgesPart f.now s.old s.new (shown w.old) (shown w.new) j (λ context. the.channel_type context ty.now)) }
{
    let typing = inner_type(f, w, s, ty)?;
    let limit = word_limit(&w.types, ty.span.to, typing.ty);
    Ok(typing.with(limit))
}

/// A list of ends, each of which is a local binding.
pub(crate) fn ends_seen<'a>(
    f: &Facts<'a>,
    w: &mut Walk,
    s: &mut TypeEnv<'a>,
    ends: &'a [End],
) -> Result<EndsSeen<'a>, AllocError>
    ensures { IfOk result (λ e. JudgesEnds f.now s.old s.new (shown w.old) (shown w.new) e ends.now) }
{
    let mut before = NamesBefore::new(f.alloc);
    let mut faults = Faults::none();
    let mut all = Vec::new(f.alloc);
    'ends: for end in ends {
        let is_before = before.has(&end.name.name);
        let name = local_name(f, is_before, &end.name);
        let word = channel_type(f, w, s, &end.word)?;
        faults = faults.and(name).and(word.faults);
        let own = named_end(&end.name.name, end.direction, word.ty);
        all.push(own)?;
        before.put(&end.name.name)?;
    }
    Ok(EndsSeen { faults, ends: all })
}

/// The depth of a channel, and the limit on it.
pub(crate) fn depth_faults<'a>(
    f: &Facts<'a>,
    w: &mut Walk,
    s: &mut TypeEnv<'a>,
    depth: &'a Option<Arg>,
) -> Result<Faults, AllocError>
    ensures { IfOk result (λ faults. JudgesFound f.now s.old s.new (shown w.old) (shown w.new) faults (λ context. the.depth_found context depth.now)) }
{
    match depth {
        None => Ok(Faults::none()),
        Some(arg) => {
            let found = count(f, w, s, &arg.value)?;
            let limit = depth_limit(arg.span.to, found.count);
            Ok(found.typing.faults.and(limit))
        }
    }
}
