//! Values as texts.

ghost use Rattle.std.specs.Prelude.{◌≡◌, ◌<◌, ◌≤◌, ◌+◌, ◌++◌, ◌∷◌, [], OnOk, IfOk, map, string_bytes, codes, ◌*◌, ◌/◌, ◌%◌, ◌^◌};
ghost use Rattle.xb_value.specs.Reads.{Reads};
ghost use Rattle.xb_value.specs.Typing.{IsOfType};
ghost use Rattle.base.specs.Texts.Hexadecimal.{hex_digits};
ghost use Rattle.xb_value.specs.declared.ty.Ty.{Ty};
ghost use Rattle.xb_value.specs.Text.{text_of, listed};

use crate::value::Value;
use base::texts::push_hex;
use std::alloc::{AllocError, Global};

/// The text of a value: `0x` and lower-case digits for bits, as many as the width needs, `(0x01, 0x02)` for a tuple and
/// `[0x01, 0x02]` for an array. It takes time and memory as the text is long.
pub fn value_text(alloc: Global, value: &Value) -> Result<String, AllocError>
    ensures text { IfOk result (λ s. string_bytes s ≡ text_of value.now) }
    // It reads as the value, at each type that the value has.
    ensures reads_back { IfOk result (λ s. (t : Ty) → IsOfType t value.now → Reads (string_bytes s) t value.now) }
{
    let mut text = String::new(alloc);
    push_value(&mut text, value)?;
    Ok(text)
}

/// Appends the text of a value.
#[cycle(write)]
pub fn push_value(text: &mut String, value: &Value) -> Result<(), AllocError>
    ensures { OnOk result (string_bytes text.new ≡ string_bytes text.old ++ text_of value.now) }
{
    match value {
        Value::Bits(bits) => push_number(text, bits.width(), bits.value()),
        Value::Tuple(parts) => {
            text.push_str("(")?;
            push_list(text, parts.as_slice())?;
            text.push_str(")")
        }
        Value::Array(parts) => {
            text.push_str("[")?;
            push_list(text, parts.as_slice())?;
            text.push_str("]")
        }
    }
}

/// Appends the texts of values, with `, ` between them.
#[cycle(write)]
fn push_list(text: &mut String, parts: &[Value]) -> Result<(), AllocError>
    ensures { OnOk result (string_bytes text.new ≡ string_bytes text.old ++ listed [] (map text_of parts.now)) }
{
    let mut separator = "";
    'parts: for part in parts {
        text.push_str(separator)?;
        push_value(text, part)?;
        separator = ", ";
    }
    Ok(())
}

/// Appends `0x` and the digits of a number of `width` bits.
fn push_number(text: &mut String, width: u8, number: u128) -> Result<(), AllocError>
    requires { width ≤ 128 }
    ensures { OnOk result (string_bytes text.new ≡ string_bytes text.old ++ (codes "0x" ++ hex_digits ((width + 3) / 4) number)) }
{
    text.push_str("0x")?;
    push_hex(text, (u32::from(width) + 3) / 4, number)
}
