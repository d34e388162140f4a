//! Types whose words channels hold.

ghost use Rattle.std.specs.Prelude.{◌≡◌, ◌&&◌, map, nat_le, IfOk};
ghost use Rattle.std.specs.List.{list_all};
ghost use Rattle.dslx_config.specs.Channels.Widths.{has_word_widths};
ghost use Rattle.dslx_core.specs.Lowering.Steps.{can_travel as travels};
ghost use Rattle.dslx_meaning.specs.Types.{plain_type as the_plain_type};
ghost use Rattle.xb_value.specs.Width.{width_of};

use crate::channels::plain_type;
use dslx_core_exprs::alike::is_sized;
use dslx_meaning::DslxType;
use std::alloc::{AllocError, Global};
use xb_value::Ty;

/// Whether a channel holds words of the type: each array in it has an element, its bits are 1 to 128 wide, and so are all of them.
/// A test takes time and memory as the type is large.
#[tactic(auto, using(crate::proofs::OnChannels::Alike::travels_by_widths))]
pub fn can_travel(alloc: Global, ty: &DslxType) -> Result<bool, AllocError>
    ensures { IfOk result (λ can. can ≡ travels ty.now) }
{
    if is_sized(ty) && has_widths(ty) {
        fits(alloc, ty)
    } else {
        Ok(false)
    }
}

/// Whether there are 1 to 128 bits in all.
fn fits(alloc: Global, ty: &DslxType) -> Result<bool, AllocError>
    ensures { IfOk result (λ fits. fits ≡ (nat_le 1 (width_of (the_plain_type ty.now)) && nat_le (width_of (the_plain_type ty.now)) 128)) }
{
    let plain = plain_type(alloc, ty)?;
    Ok(has_few_bits(&plain))
}

#[tactic(auto, using(crate::proofs::OnChannels::Alike::least_says))]
fn has_few_bits(ty: &Ty) -> bool
    ensures { result ≡ (nat_le 1 (width_of ty.now) && nat_le (width_of ty.now) 128) }
{
    let width = ty.width();
    1 <= width && width <= 128
}

/// Whether all bits in the type are 1 to 128 wide.
#[cycle(has_widths)]
fn has_widths(ty: &DslxType) -> bool
    ensures { result ≡ has_word_widths ty.now }
{
    match ty {
        DslxType::Bits(_, width) => is_width(*width),
        DslxType::Tuple(parts) => have_widths(parts.as_slice()),
        DslxType::Array(part, _) => has_widths(part.get()),
        DslxType::Struct(_, _, parts) => have_widths(parts.as_slice()),
        DslxType::Enum(_, _, width) => is_width(*width),
        DslxType::Token => true,
    }
}

/// The same of each type.
#[cycle(has_widths)]
fn have_widths(types: &[DslxType]) -> bool
    ensures { result ≡ list_all (λ b. b) (map has_word_widths types.now) }
{
    'types: for ty in types {
        if !has_widths(ty) {
            return false;
        }
    }
    true
}

fn is_width(width: u128) -> bool
    ensures { result ≡ (nat_le 1 width && nat_le width 128) }
{
    1 <= width && width <= 128
}
