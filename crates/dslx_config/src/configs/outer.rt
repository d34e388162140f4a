//! The outer channels.

ghost use Rattle.std.specs.Prelude.{◌≡◌, IfOk, map};
ghost use Rattle.dslx_meaning.specs.Items.{meanings_of};
ghost use Rattle.dslx_meaning.specs.Lists.{all_some};
ghost use Rattle.dslx_meaning.specs.Network.{kind_of_end as kind_of};
ghost use Rattle.dslx_core.specs.Networks.Assembly.{lower_outer, lower_outers};
ghost use Rattle.dslx_scope_names.specs.Values.Seen.{scope_seen};

use crate::channels::plain_type;
use crate::configs::number::top_parametric_args;
use crate::configs::word::word_there;
use dslx_core::Outer;
use dslx_scope::locals::Locals;
use dslx_scope_names::parametric_args::bindings_of;
use dslx_scope_names::values::ScopeEnv;
use dslx_tree::{Direction, End, Module, Proc};
use dslx_values::copy_name;
use net_core::Kind;
use std::alloc::{AllocError, Global};
use xb_value::Seq;

/// The outer channels, one for each end of the top's `config`; `None` where one has no type.
pub fn outers_there<'a>(
    alloc: Global,
    text: &'a Module,
    top: &'a Proc,
) -> Result<Option<Seq<Outer>>, AllocError>
    ensures { IfOk result (λ outers. outers ≡ lower_outers (meanings_of text.now) top.now) }
{
    let parametric_args = top_parametric_args(alloc, text, top)?;
    let bound = bindings_of(
        alloc,
        top.parametrics.as_slice(),
        parametric_args.as_slice(),
    )?;
    let locals = Locals::new(alloc);
    let context = ScopeEnv {
        text,
        parametric_args: bound.as_slice(),
        locals: &locals,
    };
    outers_at(alloc, context, top.config.ends.as_slice())
}

fn outers_at<'a>(
    alloc: Global,
    context: ScopeEnv<'a>,
    ends: &'a [End],
) -> Result<Option<Seq<Outer>>, AllocError>
    ensures { IfOk result (λ outers. outers ≡ all_some (map (lower_outer (scope_seen context.entry)) ends.now)) }
{
    let mut outers = Vec::new(alloc);
    'ends: for end in ends {
        match outer_there(alloc, context, end)? {
            Some(outer) => outers.push(outer)?,
            None => return Ok(None),
        }
    }
    Ok(Some(Seq::from_vec(outers)))
}

fn outer_there<'a>(
    alloc: Global,
    context: ScopeEnv<'a>,
    end: &'a End,
) -> Result<Option<Outer>, AllocError>
    ensures { IfOk result (λ outer. outer ≡ lower_outer (scope_seen context.entry) end.now) }
{
    match word_there(alloc, context, &end.word)? {
        Some(ty) => Ok(Some(Outer {
            name: copy_name(alloc, &end.name.name)?,
            ty: plain_type(alloc, &ty)?,
            kind: kind_of_end(end.direction),
        })),
        None => Ok(None),
    }
}

/// What the world does at a channel of whose two ends the text has this one.
fn kind_of_end(direction: Direction) -> Kind
    ensures { result ≡ kind_of direction }
{
    match direction {
        Direction::In => Kind::Input,
        Direction::Out => Kind::Output,
    }
}
