//! How many instances a function comes to: one for each name and list of parametric arguments.

use crate::functions::answers::first_not_of;
use std::test::Fail;

const ONE: &str = "
fn a() -> bool { true }
fn f() -> u8 { u8:1 } fn a() -> bool { true }
fn f(x: u8) -> u8 { x } const K = f(u8:3); fn a() -> bool { K == u8:3 }
fn f() -> u8 { missing } fn a() -> bool { true }
";

const TWO: &str = "
fn f() -> u8 { u8:1 } fn a() -> bool { f() == f() }
fn f<N: u32>(x: uN[N]) -> u32 { N } fn a() -> bool { f(u9:1) == f(u9:2) }
fn f<N: u32>(x: uN[N]) -> u32 { N } fn a() -> bool { f(u9:1) == f<u32:9>(u9:2) }
fn f<N: u32 = { u32:4 }>(x: u8) -> u32 { N } fn a() -> bool { f(u8:1) == f<u32:4>(u8:2) }
fn f<N: u32>(x: u8) -> u32 { N } fn a() -> bool { f<u32:4>(u8:1) == f<{u32:2 + u32:2}>(u8:2) }
fn f(x: u8) -> u8 { x } fn a() -> bool { if f(u8:1) == u8:1 { f(u8:2) == u8:2 } else { f(u8:3) == u8:3 } }
";

const THREE: &str = "
fn f<N: u32>(x: uN[N]) -> u32 { N } fn a() -> bool { f(u9:1) + f(u5:2) == u32:14 }
fn f<N: u32>(x: u8) -> u32 { N } fn a() -> bool { f<u32:1>(u8:1) + f<u32:2>(u8:1) + f<u32:1>(u8:2) == u32:4 }
fn f<B: bool>(x: u8) -> u8 { x } fn a() -> bool { f<{true}>(u8:1) == f<{false}>(u8:1) }
fn g() -> u8 { u8:1 } fn f() -> u8 { g() } fn a() -> bool { f() == g() }
fn g<N: u32>(x: uN[N]) -> u32 { N } fn f(x: u8) -> u32 { g(x) } fn a() -> bool { f(u8:1) == g(u8:2) }
";

const FIVE: &str = "
fn g<N: u32>(x: uN[N]) -> u32 { N } fn f<N: u32>(x: uN[N]) -> u32 { g(x) } fn a() -> bool { f(u8:1) == f(u9:2) }
fn g<N: u32>(x: u8) -> u32 { N } fn f<N: u32>(x: u8) -> u32 { g<N>(x) + g<{N + u32:1}>(x) } fn a() -> bool { f<u32:1>(u8:1) + g<u32:3>(u8:1) == u32:6 }
";

#[test]
fn what_is_not_called_has_no_instance(rt: HostRuntime) -> Result<(), Fail> {
    let odd = first_not_of(rt.alloc(), 1, ONE)?;
    assert_eq!(rt; odd, "");
    Ok(())
}

#[test]
fn calls_with_the_same_parametric_args_come_to_one(rt: HostRuntime) -> Result<(), Fail> {
    let odd = first_not_of(rt.alloc(), 2, TWO)?;
    assert_eq!(rt; odd, "");
    Ok(())
}

#[test]
fn calls_with_other_parametric_args_come_to_others(rt: HostRuntime) -> Result<(), Fail> {
    let odd = first_not_of(rt.alloc(), 3, THREE)?;
    assert_eq!(rt; odd, "");
    Ok(())
}

#[test]
fn instances_need_instances(rt: HostRuntime) -> Result<(), Fail> {
    let odd = first_not_of(rt.alloc(), 5, FIVE)?;
    assert_eq!(rt; odd, "");
    Ok(())
}
