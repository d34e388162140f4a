//! Procs that are spawned, and the ends that are handed to them.

ghost use Rattle.std.specs.Prelude.{◌≡◌, ◌==◌, ◌&&◌, List, None, MatchOption, length, map, min, nat_lt, not};
ghost use Rattle.std.specs.List.{AllByRecursion};
ghost use Rattle.base.specs.Lists.Prefix.{IsPrefix};
ghost use Rattle.dslx_tree.specs.declared.item.Definition.TheVariants as d;
ghost use Rattle.dslx_meaning.specs.Network.{as_proc};
ghost use Rattle.dslx_meaning.specs.Rules.ProcRules as the;
ghost use Rattle.dslx_check_rules.specs.Interned.{AreDistinct, HasRowIf, ItemNames, type_if};
ghost use Rattle.dslx_check_rules.specs.Seen.{seen};
ghost use Rattle.dslx_check_rules.specs.declared.table.row.TypeRow.{TypeRow as Row};
ghost use Rattle.dslx_check_facts.specs.Firsts.{IsMeant, meant_by};
ghost use Rattle.dslx_check_facts.specs.Known.{at_place};
ghost use Rattle.dslx_check_declarations.specs.Config.{MeansEnds};
ghost use Rattle.dslx_check_declarations.specs.Spawns.{one_handed};

use crate::config::Made;
use crate::ends::misfits;
use base::texts::Name;
use dslx_check_facts::{Facts, MemberEnd};
use dslx_check_rules::control::calls::ParametricArgument;
use dslx_check_rules::nodes::both;
use dslx_check_rules::{Faults, TypeId, TypeTable, rule};
use dslx_tree::{Definition, End, Ident, Proc, Spawn};

/// The proc of a name, with its number, if the first item of that name is one.
pub fn process_named<'a>(f: &Facts<'a>, name: &Name) -> Option<(u32, &'a Proc)>
    ensures { MatchOption result (as_proc (meant_by f.now name.now) ≡ None) (λ p. IsMeant f.now name.now p.0 (d.Proc p.1.now)) }
{
    match f.item(name) {
        Some((item, Definition::Proc(process))) => Some((item, process)),
        _ => None,
    }
}

/// Whether a spawn hands over as many ends as its target has, and gives no more arguments than that has parametrics.
pub fn has_right_count(spawn: &Spawn, target: &Proc, given: &[ParametricArgument]) -> bool
    ensures { result ≡ (length spawn.now.ends == length target.now.config.ends && not (nat_lt (length target.now.parametrics) (length given.now))) }
{
    let has_more = target.parametrics.len() < given.len();
    both(spawn.ends.len() == target.config.ends.len(), !has_more)
}

/// Rule 9 at each end that is handed over, by the types of the words that are declared.
pub fn each_handed(
    types: &TypeTable,
    made: &Made,
    words: &[Option<TypeId>],
    ends: &[End],
    idents: &[Ident],
) -> Faults
    ensures { (names : ItemNames) (later : List Row) (m : the.Made) → AreDistinct names → IsPrefix types.now later → MeansEnds names types.now later made.now m
        → AllByRecursion (HasRowIf types.now) words.now → result ≡ seen (the.handed_faults m (map (type_if names later) words.now) ends.now idents.now) }
{
    let both = lesser(words.len(), ends.len());
    let count = lesser(both, idents.len());
    let mut faults = Faults::none();
    'ends: for i in 0..count {
        let word = word_at(words, i);
        let own = handed_fault(types, made, word, &ends[i], &idents[i]);
        faults = faults.and(own);
    }
    faults
}

/// Rule 9 at one end.
fn handed_fault(
    types: &TypeTable,
    made: &Made,
    word: Option<TypeId>,
    end: &End,
    ident: &Ident,
) -> Faults
    ensures { (names : ItemNames) (later : List Row) (m : the.Made) → AreDistinct names → IsPrefix types.now later → MeansEnds names types.now later made.now m
        → HasRowIf types.now word → result ≡ seen (one_handed m (type_if names later word) end.now ident.now) }
{
    let wanted = MemberEnd {
        direction: end.direction,
        word,
    };
    let is_other = misfits(types, wanted, made.end(&ident.name));
    Faults::breaks_if(is_other, rule::VALUE_HAS_ITS_TYPE, ident.span)
}

fn word_at(words: &[Option<TypeId>], at: usize) -> Option<TypeId>
    ensures { result ≡ at_place words.now at }
{
    match words.get(at) {
        Some(word) => *word,
        None => None,
    }
}

/// The lesser one of two numbers.
pub(crate) fn lesser(a: usize, b: usize) -> usize
    ensures { result ≡ min a b }
{
    if a < b { a } else { b }
}
