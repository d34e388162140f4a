//! Spans. Below each text stands its shape, with the span of each part before it; an expression that is a block has its span
//! twice. And chains of `&&` and `||`, which mean the same from either side.

use crate::parser::answers::{Frame, WHOLE, first_odd};
use std::test::Fail;

const PLACES: &str = "
const A = 1;
    @0..12 (const @6..7 A = @10..11 1)
pub const A = b + (c);
    pub @4..22 (const @10..11 A = @14..21 (+ @14..15 b @19..20 c))
type T = u8[2];
    @0..15 (type @5..6 T = @9..14 (array @9..11 u8 @12..13 2))
fn f(x: u8) -> T { x }
    @0..22 (fn @3..4 f @5..6 x : @8..10 u8 -> @15..16 T @17..22 (block @19..20 x))
const A = { let (a, _): T = -1; a.0; };
    @0..39 (const @6..7 A = @10..38 @10..38 (block @12..31 (let @16..22 (tuple @17..18 a @20..21 _) : @24..25 T = @28..30 (minus @29..30 1)) (do @32..35 (element @32..33 a @34..35 0))))
const A = f<N, {2}>(x)[1 +: u8]; fn f() {}
    @0..32 (const @6..7 A = @10..31 (part @10..22 (call @10..11 f < @12..13 @12..13 N @15..18 @16..17 2 > @20..21 x) @23..24 1 @28..30 u8)) @33..42 (fn @36..37 f @40..42 (block))
const A = if a { 1 } else { 2 } as u8;
    @0..38 (const @6..7 A = @10..37 (as @10..31 (if @13..14 a @15..20 (block @17..18 1) @26..31 @26..31 (block @28..29 2)) @35..37 u8))
const A = match a { T:1 | E::B => (b), _ => () };
    @0..49 (const @6..7 A = @10..48 (match @16..17 a (arm @20..23 @20..21 T:1 @26..30 (member @26..27 E @29..30 B) => @35..36 b) (arm @39..40 _ => @44..46 (tuple))))
const A = for (i, s) in 0..n { s }(a);
    @0..38 (const @6..7 A = @10..37 (for @15..16 i @18..19 s in @24..25 0 @27..28 n @29..34 (block @31..32 s) @35..36 a))
const A = S { x: -1, y, ..s }; struct S {}
    @0..30 (const @6..7 A = @10..29 (new @10..11 S @14..15 x = @17..19 (minus @18..19 1) @21..22 y .. @26..27 s)) @31..42 (struct @38..39 S)
const A = u8[2]:[1, s8:-1, ...];
    @0..32 (const @6..7 A = @10..31 (list : @10..15 (array @10..12 u8 @13..14 2) @17..18 1 @20..25 @20..22 s8:-1 ...))
const A = a[b][c:d].e.1 && !x as u8 * (y + z);
    @0..46 (const @6..7 A = @10..45 (&& @10..23 (element @10..21 (field @10..19 (slice @10..14 (index @10..11 a @12..13 b) @15..16 c @17..18 d) @20..21 e) @22..23 1) @27..45 (* @27..35 (as @27..29 (not @28..29 x) @33..35 u8) @39..44 (+ @39..40 y @43..44 z))))
enum E: u8 { A = 1 } struct S { x: (u8,) }
    @0..20 (enum @5..6 E : @8..10 u8 @13..14 A = @17..18 1) @21..42 (struct @28..29 S @32..33 x : @35..40 (tuple @36..38 u8))
proc P<N: u32> { a: chan<u8> in; config(b: chan<T> out) { let (p, c) = chan<u8, 2>(\"n\"); spawn P<N>(p, c); (a) } init { 1 } next(s: u8) { s } }
    @0..143 (proc @5..6 P < @7..8 N : @10..13 u32 > @17..18 a : @25..27 u8 in @33..112 (config @40..41 b : @48..49 T out @58..88 (chan @63..64 p @66..67 c : @76..78 u8 depth @80..81 @80..81 2 named @83..86 n) @89..106 (spawn @95..96 P < @97..98 @97..98 N > @100..101 p @103..104 c) (result @108..109 a)) (init @118..123 (block @120..121 1)) @124..141 (next @129..130 s : @132..134 u8 @136..141 (block @138..139 s)))
";

const PLACED: Frame<'static> = Frame {
    before: "",
    behind: "",
    shape_before: "",
    shape_behind: "",
    has_spans: true,
};

#[test]
fn places(rt: HostRuntime) -> Result<(), Fail> {
    let odd = first_odd(rt.alloc(), PLACES, &PLACED)?;
    assert_eq!(rt; odd.as_str(), "");
    Ok(())
}

const CHAINS: &str = "
const A = a == b && c && d;
    (const A = (&& (&& (== a b) c) d))
const A = a && b || c || d;
    (const A = (|| (|| (&& a b) c) d))
";

#[test]
fn chains(rt: HostRuntime) -> Result<(), Fail> {
    let odd = first_odd(rt.alloc(), CHAINS, &WHOLE)?;
    assert_eq!(rt; odd.as_str(), "");
    Ok(())
}
