//! A text whose tokens were worked by hand.

use dslx_token::rules::kind::{
    ARGS, END, FN, FUNNAME, LPAREN, NAME, NUMBER, PATH, TYPE, TYPENAME, UNSIGNED,
};
use dslx_token::tokens;
use std::test::Fail;

#[test]
fn names_have_the_kinds_of_what_is_declared(rt: HostRuntime) -> Result<(), Fail> {
    let found = tokens(rt.alloc(), "f<T(T::f // g\n u7 0x1_F fn f type T")?;
    let kinds = [
        FUNNAME, ARGS, TYPENAME, LPAREN, TYPENAME, PATH, NAME, UNSIGNED, NUMBER, FN, FUNNAME, TYPE,
        TYPENAME, END,
    ];
    assert_eq!(rt; found.len(), kinds.len());
    for (token, kind) in found.iter().zip(&kinds) {
        assert_eq!(rt; token.kind(), *kind);
    }
    Ok(())
}
