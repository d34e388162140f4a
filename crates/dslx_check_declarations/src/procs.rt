//! Ends of procs, and what a `config` makes of them.

ghost use Rattle.std.specs.Prelude.{◌≡◌, ◌++◌, ◌∷◌, [], List, map, IfOk, OnOk};
ghost use Rattle.base.specs.Lists.Prefix.{IsPrefix};
ghost use Rattle.dslx_meaning.specs.Rules.ProcRules as the;
ghost use Rattle.dslx_meaning.specs.Rules.TypeEnvs.{ChannelEnd};
ghost use Rattle.dslx_check_rules.specs.Interned.{AreDistinct, ItemNames};
ghost use Rattle.dslx_check_rules.specs.declared.table.row.TypeRow.{TypeRow as Row};
ghost use Rattle.dslx_check_rules.specs.Nodes.Parts.{Pairs};
ghost use Rattle.dslx_check_declarations.specs.Config.{MeansEnds};
ghost use Rattle.dslx_check_declarations.specs.Ends.{IsNamed};
ghost use Rattle.dslx_check_declarations.specs.Procs.{AddsEnds, ConfigEnds, are_members, is_member_of, member_bound};

use crate::config::Made;
use crate::ends::{NamedEnd, misfits};
use dslx_check_facts::TypeEnv;
use dslx_check_rules::nodes::both;
use dslx_check_rules::{Faults, TypeTable, rule};
use dslx_tree::{Ident, Proc};
use std::alloc::AllocError;

/// These ends are declared from here on. Of two of one name the first is meant.
pub fn add_all<'a>(
    s: &mut TypeEnv<'a>,
    made: &mut Made<'a>,
    ends: &[NamedEnd<'a>],
) -> Result<(), AllocError>
    ensures { OnOk result (AddsEnds s.old s.new made.old made.new ends.now) }
{
    let count = ends.len();
    'ends: for i in 0..count {
        add_one(s, made, &ends[count - 1 - i])?;
    }
    Ok(())
}

fn add_one<'a>(
    s: &mut TypeEnv<'a>,
    made: &mut Made<'a>,
    end: &NamedEnd<'a>,
) -> Result<(), AllocError>
    ensures { OnOk result (AddsEnds s.old s.new made.old made.new (end.now ∷ [])) }
{
    s.ends.bind(end.name, ())?;
    made.add(*end)
}

/// These ends are members from here on. Of two of one name the first is meant.
pub fn bind_members<'a>(s: &mut TypeEnv<'a>, members: &[NamedEnd<'a>]) -> Result<(), AllocError>
    ensures { OnOk result (s.new ≡ record s.old { members = map member_bound members.now ++ s.old.members }) }
{
    let count = members.len();
    'members: for i in 0..count {
        bind_member(s, &members[count - 1 - i])?;
    }
    Ok(())
}

fn bind_member<'a>(s: &mut TypeEnv<'a>, member: &NamedEnd<'a>) -> Result<(), AllocError>
    ensures { OnOk result (s.new ≡ record s.old { members = member_bound member.now ∷ s.old.members }) }
{
    s.members.bind(member.name, member.end)
}

/// What the tuple of a `config` breaks, at its end: rule 1 at an end that isn't declared, and rule 30 where an end isn't used once, or the
/// tuple isn't the members in order.
pub fn result_faults<'a>(
    types: &TypeTable,
    s: &TypeEnv<'a>,
    made: &mut Made<'a>,
    process: &'a Proc,
    members: &[NamedEnd<'a>],
) -> Result<Faults, AllocError>
    ensures { IfOk result (λ faults. ConfigEnds types.now s.now made.old process.now members.now faults) }
{
    let idents = process.config.result.as_slice();
    let unknown = made.unknown_ends(idents);
    made.use_all(idents)?;
    let are_used = made.all_once(s);
    let is_right = both(are_used, is_members(types, made, members, idents));
    let own = Faults::breaks_if(!is_right, rule::CONFIG_USES_EACH_END, process.config.span);
    Ok(unknown.and(own))
}

/// Whether the tuple is the members in order.
fn is_members(types: &TypeTable, made: &Made, members: &[NamedEnd], idents: &[Ident]) -> bool
    ensures { (names : ItemNames) (later : List Row) (m : the.Made) (os : List ChannelEnd) → AreDistinct names → IsPrefix types.now later → MeansEnds names types.now later made.now m
        → Pairs (IsNamed names types.now later) members.now os → result ≡ are_members m os idents.now }
{
    if members.len() != idents.len() {
        return false;
    }
    'members: for i in 0..members.len() {
        let fits = is_member(types, made, &members[i], &idents[i]);
        if !fits {
            return false;
        }
    }
    true
}

/// Whether an end that is named is one that the member may be.
fn is_member(types: &TypeTable, made: &Made, member: &NamedEnd, ident: &Ident) -> bool
    ensures { (names : ItemNames) (later : List Row) (m : the.Made) (o : ChannelEnd) → AreDistinct names → IsPrefix types.now later → MeansEnds names types.now later made.now m
        → IsNamed names types.now later member.now o → result ≡ is_member_of m o ident.now }
{
    !misfits(types, member.end, made.end(&ident.name))
}
