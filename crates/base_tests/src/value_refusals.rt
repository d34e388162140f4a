//! Texts that are no values, with the positions of their faults, which were worked by hand.

use crate::value_types::mixed;
use std::alloc::Global;
use std::process::Abort;
use std::test::Fail;
use xb_value::{Ty, ValueError, read_value};

/// Why a text is refused at a type.
fn refusal<R: Abort>(rt: &R, alloc: Global, text: &str, ty: &Ty) -> Option<ValueError> {
    assert!(rt; text.len() < 1 << 32);
    read_value(alloc, text, ty).err()
}

#[test]
fn texts_that_are_no_value(rt: HostRuntime) {
    let ty = Ty::Bits(8);
    let texts = [
        ("", 0),
        (" 0x1", 0),
        ("1", 0),
        ("0X1", 1),
        ("0x", 2),
        ("0xg", 2),
        ("0x1 ", 3),
        ("0x1)", 3),
        ("0x000000000000000000000000000000007", 34),
        ("(", 1),
        ("(,", 1),
        ("(0x1", 4),
        ("(0x1]", 4),
        ("(0x1,)", 5),
        ("(0x1 0x2)", 5),
        ("[0x1,,", 5),
        ("(0x1 , 0x", 9),
    ];
    for (text, at) in texts {
        assert_eq!(rt;
            refusal(&rt, rt.alloc(), text, &ty),
            Some(ValueError::Syntax(at)),
            "{text}"
        );
    }
}

#[test]
fn values_that_misfit(rt: HostRuntime) -> Result<(), Fail> {
    let ty = mixed(rt.alloc())?;
    let texts = [
        ("0x1", 0),
        ("()", 0),
        ("[0x0a, [0x01, 0x1f], 0x1]", 0),
        ("(0x0a, [0x01, 0x20])", 0),
        ("(0x100, [0x01, 0x1f], 0x1)", 1),
        ("(0x0a, 0x1, 0x1)", 7),
        ("(0x0a, (0x01, 0x1f), 0x1)", 7),
        ("(0x0a, [0x20], 0x1)", 7),
        ("(0x0a, [0x01, 0x20], 0x1)", 14),
        ("(0x0a, [0x01, 0x1f], 0x2)", 21),
    ];
    for (text, at) in texts {
        assert_eq!(rt;
            refusal(&rt, rt.alloc(), text, &ty),
            Some(ValueError::Shape(at)),
            "{text}"
        );
    }
    let both = refusal(&rt, rt.alloc(), "(0x100, [0x01", &ty);
    assert_eq!(rt; both, Some(ValueError::Syntax(13)));
    let long = "0xffffffffffffffffffffffffffffffff";
    assert_eq!(rt;
        refusal(&rt, rt.alloc(), long, &Ty::Bits(127)),
        Some(ValueError::Shape(0))
    );
    Ok(())
}
