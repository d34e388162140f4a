//! Names of local bindings.

ghost use Rattle.std.specs.Prelude.{◌≡◌, ◌||◌, List, ℕ, is_some};
ghost use Rattle.dslx_meaning.specs.Callees.{is_own_name as is_own};
ghost use Rattle.dslx_meaning.specs.Lists.{is_in};
ghost use Rattle.dslx_meaning.specs.Rules.NameRules as the;
ghost use Rattle.dslx_meaning.specs.Rules.TypeEnvs.{GlobalEnv, TypeEnv};
ghost use Rattle.dslx_check_rules.specs.Seen.{seen};
ghost use Rattle.dslx_check_facts.specs.Callees.{is_function_callee};
ghost use Rattle.dslx_check_facts.specs.Firsts.{meant_by};
ghost use Rattle.dslx_check_facts.specs.Known.{FactsHold};
ghost use Rattle.dslx_check_facts.specs.Walks.{WalkShown};

use crate::facts::Facts;
use base::texts::Name;
use dslx_check_rules::{Faults, rule};
use dslx_meaning::names::{Callee, callee_of};
use dslx_tree::Ident;
use xb_span::Span;

/// Rule 2 at a local binding: a builtin's or an item's name, or one that its list has before.
pub fn local_name(f: &Facts, is_before: bool, ident: &Ident) -> Faults
    ensures { (known : GlobalEnv) (later : WalkShown) (context : TypeEnv) (before : List (List ℕ)) → FactsHold f.now later known → context.known.whole ≡ known.whole
        → is_before ≡ is_in ident.now.name before → result ≡ seen (the.local_name context before ident.now) }
{
    local_name_faults(f, is_before, ident.span, &ident.name)
}

/// The same of a name at a span.
#[tactic(auto, using(crate::proofs::OnLocals::taken_name))]
pub fn local_name_faults(f: &Facts, is_before: bool, span: Span, name: &Name) -> Faults
    ensures { (known : GlobalEnv) (later : WalkShown) (context : TypeEnv) (before : List (List ℕ)) → FactsHold f.now later known → context.known.whole ≡ known.whole
        → is_before ≡ is_in name.now before → result ≡ seen (the.local_name context before (record { span = span; name = name.now })) }
{
    let is_taken = is_taken_name(f, name) || is_before;
    Faults::breaks_if(is_taken, rule::NAME_STANDS_ONCE, span)
}

/// Whether it is the name of a builtin, an effect or an item.
fn is_taken_name(f: &Facts, name: &Name) -> bool
    ensures { result ≡ (is_own name.now || is_some (meant_by f.now name.now)) }
{
    is_own_name(name) || is_item_name(f, name)
}

fn is_item_name(f: &Facts, name: &Name) -> bool
    ensures { result ≡ is_some (meant_by f.now name.now) }
{
    match f.item(name) {
        Some(_) => true,
        None => false,
    }
}

/// Whether it is the name of a builtin or an effect.
#[tactic(auto, using(crate::proofs::OnCallees::own_by_callee))]
pub fn is_own_name(name: &Name) -> bool
    ensures { result ≡ is_own name.now }
{
    !is_function(callee_of(name))
}

fn is_function(callee: Callee) -> bool
    ensures { result ≡ is_function_callee callee }
{
    match callee {
        Callee::Function => true,
        _ => false,
    }
}
