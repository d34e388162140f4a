//! Channels by their names.

ghost use Rattle.std.specs.Prelude.{◌≡◌, List, IfSome};
ghost use Rattle.std.specs.Option.{option_map};
ghost use Rattle.dslx_meaning.specs.Rules.CallRules.{channel_end_at};
ghost use Rattle.dslx_meaning.specs.Rules.TypeEnvs.{GlobalEnv};
ghost use Rattle.dslx_check_rules.specs.Interned.{HasRowIf, ItemNames};
ghost use Rattle.dslx_check_rules.specs.declared.table.row.TypeRow.{TypeRow};
ghost use Rattle.dslx_check_facts.specs.TypeEnvs.{HasBoundRows, end_of, env_of};
ghost use Rattle.dslx_check_rules.specs.Control.Effects.{IsEffectChannel};
ghost use Rattle.dslx_check_uses.specs.Ends.{channel_by_name};

use base::texts::Name;
use dslx_check_facts::{MemberEnd, TypeEnv};
use dslx_check_rules::control::effects::{self, ChannelTyping};
use xb_span::Span;

/// A channel by its name.
pub fn channel_named<'a>(s: &TypeEnv<'a>, span: Span, name: &Name) -> ChannelTyping
    ensures { (items : ItemNames) (rows later : List TypeRow) (known : GlobalEnv) → HasBoundRows items rows s.now
        → IsEffectChannel items rows later (env_of items later known s.now) result (channel_by_name span (env_of items later known s.now) name.now) }
{
    let has_site = s.used.has(name);
    match member_end(s, name) {
        Some(end) => ChannelTyping {
            typing: effects::named_channel(span, true),
            direction: Some(end.direction),
            word: end.word,
            has_site,
        },
        None => ChannelTyping {
            typing: effects::named_channel(span, false),
            direction: None,
            word: None,
            has_site,
        },
    }
}

/// The end that a name stands for: a member's, unless a bound name hides it. Its word's type has a row, as each that is bound.
fn member_end<'a>(s: &TypeEnv<'a>, name: &Name) -> Option<MemberEnd>
    ensures is { (items : ItemNames) (later : List TypeRow) (known : GlobalEnv) → channel_end_at (env_of items later known s.now) name.now ≡ option_map (λ e. end_of items later (name.now, e)) result }
    ensures row { (items : ItemNames) (rows : List TypeRow) → HasBoundRows items rows s.now → IfSome result (λ e. HasRowIf rows e.word) }
{
    match s.locals.get(name) {
        Some(_) => None,
        None => s.members.get(name).copied(),
    }
}
