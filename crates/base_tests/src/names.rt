//! Printed numbers and names.

use base::texts::{Name, push_decimal, push_hex};
use std::test::Fail;

#[test]
fn numbers_are_printed(rt: HostRuntime) -> Result<(), Fail> {
    let mut text = String::new(rt.alloc());
    push_decimal(&mut text, u64::MAX)?;
    text.push_str(" ")?;
    push_hex(&mut text, 3, 0xfe)?;
    assert_eq!(rt; text.as_str(), "18446744073709551615 0fe");
    Ok(())
}

#[test]
fn names_are_compared(rt: HostRuntime) -> Result<(), Fail> {
    let name = Name::from_string(String::from_str(rt.alloc(), "e.x")?);
    let other = Name::from_string(String::from_str(rt.alloc(), "e.y")?);
    assert!(rt; name == name);
    assert!(rt; name != other);
    let text = format!(in rt.alloc(); "{name}")?;
    assert_eq!(rt; text.as_str(), "e.x");
    Ok(())
}
