//! Array literals.

ghost use Rattle.std.specs.Prelude.{◌≡◌, ◌++◌, IfOk, OnOk};
ghost use Rattle.std.specs.Option.{option_map, option_copied};
ghost use Rattle.dslx_meaning.specs.Lists.{repeated, last_of};
ghost use Rattle.dslx_meaning.specs.declared.value.DslxValue.{Array as of_elements};
ghost use Rattle.dslx_meaning.specs.Meaning.{filled as the_array};

use crate::copies::copy_value;
use dslx_meaning::DslxValue;
use std::alloc::{AllocError, Global};
use xb_value::Seq;

/// The array of so many elements that are written, the last of which is repeated where dots stand; `None` where they are not
/// as many, or with dots more or none. It takes time and memory as the array is large.
pub fn filled(
    alloc: Global,
    dots: bool,
    count: u128,
    elements: Seq<DslxValue>,
) -> Result<Option<DslxValue>, AllocError>
    ensures { IfOk result (λ v. v ≡ the_array dots count elements) }
{
    let written = elements.len() as u128;
    if !dots {
        return Ok(if written == count {
            Some(DslxValue::Array(elements))
        } else {
            None
        });
    }
    if count < written {
        return Ok(None);
    }
    filled_up(alloc, count - written, elements)
}

/// The array of the elements, and so many copies more of the last one.
fn filled_up(
    alloc: Global,
    more: u128,
    mut elements: Seq<DslxValue>,
) -> Result<Option<DslxValue>, AllocError>
    ensures { IfOk result (λ v. v ≡ option_map (λ last. of_elements (elements ++ repeated more last)) (last_of elements)) }
{
    let last = match last_value(elements.as_slice()) {
        Some(value) => copy_value(alloc, value)?,
        None => return Ok(None),
    };
    push_copies(alloc, &mut elements, &last, more)?;
    Ok(Some(DslxValue::Array(elements)))
}

/// The last of the values, if there is one.
fn last_value(values: &[DslxValue]) -> Option<&DslxValue>
    ensures { option_copied result ≡ last_of values.now }
{
    values.last()
}

/// Puts so many copies of a value behind the others.
fn push_copies(
    alloc: Global,
    values: &mut Seq<DslxValue>,
    value: &DslxValue,
    count: u128,
) -> Result<(), AllocError>
    ensures { OnOk result (values.new ≡ values.old ++ repeated count value.now) }
{
    'copies: for _ in 0..count {
        values.push(copy_value(alloc, value)?)?;
    }
    Ok(())
}
