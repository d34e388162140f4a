//! Texts that are read and written again.

use crate::value_types::mixed;
use std::alloc::Global;
use std::process::Abort;
use std::test::Fail;
use xb_value::{Boxed, Seq, Ty, ValueError, read_value, value_text};

/// The text that is written of what a text reads as.
fn rewritten<R: Abort>(rt: &R, alloc: Global, text: &str, ty: &Ty) -> Result<String, ValueError> {
    assert!(rt; text.len() < 1 << 32);
    let value = read_value(alloc, text, ty)?;
    Ok(value_text(alloc, &value)?)
}

#[test]
fn numbers_of_each_length(rt: HostRuntime) -> Result<(), Fail> {
    let most = "0xffffffffffffffffffffffffffffffff";
    let less = "0x7fffffffffffffffffffffffffffffff";
    let texts = [
        (1, "0x1", "0x1"),
        (7, "0x7F", "0x7f"),
        (8, "0x0", "0x00"),
        (8, "0x00000000000000000000000000000007", "0x07"),
        (63, "0xABCdef", "0x0000000000abcdef"),
        (64, "0xffffffffffffffff", "0xffffffffffffffff"),
        (65, "0x1", "0x00000000000000001"),
        (127, less, less),
        (128, most, most),
    ];
    for (width, text, want) in texts {
        let written = rewritten(&rt, rt.alloc(), text, &Ty::Bits(width))?;
        assert_eq!(rt; written.as_str(), want);
    }
    Ok(())
}

#[test]
fn lists_of_values(rt: HostRuntime) -> Result<(), Fail> {
    let ty = mixed(rt.alloc())?;
    let plain = "(0x0a, [0x01, 0x1f], 0x1)";
    let free = "( 0xA,[0x1 ,0x1F]  , 0x00000000000000000000000000000001 )";
    for text in [plain, free] {
        assert_eq!(rt; rewritten(&rt, rt.alloc(), text, &ty)?.as_str(), plain);
    }
    let none = Ty::Tuple(Seq::new(rt.alloc()));
    assert_eq!(rt; rewritten(&rt, rt.alloc(), "(  )", &none)?.as_str(), "()");
    let nothing = Ty::Array(Boxed::new(rt.alloc(), Ty::Bits(8))?, 0);
    assert_eq!(rt; rewritten(&rt, rt.alloc(), "[]", &nothing)?.as_str(), "[]");
    Ok(())
}
