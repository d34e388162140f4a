//! The types of operations on words.

ghost use Rattle.std.specs.Prelude.{◌≡◌, ◌+◌, ◌&&◌, ◌==◌, nat_le, nat_lt, Some, IfOk};
ghost use Rattle.dslx_meaning.specs.Lists.{and_then, where_true, with_both};
ghost use Rattle.dslx_core.specs.CoreValues.{is_width};
ghost use Rattle.dslx_core.specs.Types.Typing.{binary_type, bits_width, unary_type};
ghost use Rattle.ir_lower_nodes.specs.Exprs.NodeTypes.{if_node};

use crate::types::limits::within;
use crate::types::stop::Stop;
use dslx_core::{CoreBinary, CoreUnary};
use std::alloc::Global;
use xb_value::Ty;

/// Whether bits may be so wide.
fn is_width(width: u64) -> bool
    ensures { result ≡ is_width width }
{
    0 < width && width <= 128
}

/// The width of bits.
pub(crate) fn width_of(ty: &Ty) -> Result<u64, Stop>
    ensures { IfOk result (λ w. bits_width ty.now ≡ Some w) }
{
    match ty {
        Ty::Bits(width) => if is_width(*width) {
            Ok(*width)
        } else {
            Err(Stop::Untyped)
        },
        _ => Err(Stop::Untyped),
    }
}

/// Bits of this width, if they may be so wide.
fn bits_of(alloc: Global, width: u8) -> Result<Ty, Stop>
    ensures { IfOk result (λ t. if_node (where_true (is_width width) (Some (Ty.Bits width))) ≡ Some t) }
{
    if is_width(u64::from(width)) {
        within(alloc, Ty::Bits(u64::from(width)))
    } else {
        Err(Stop::Untyped)
    }
}

pub(crate) fn unary(alloc: Global, op: CoreUnary, a: &Ty) -> Result<Ty, Stop>
    ensures { IfOk result (λ t. if_node (and_then (bits_width a.now) (λ w. Some (unary_type op w))) ≡ Some t) }
{
    let width = width_of(a)?;
    within(alloc, Ty::Bits(unary_width(op, width)))
}

/// How wide an operation on a word of this width is.
fn unary_width(op: CoreUnary, width: u64) -> u64
    ensures { Ty.Bits result ≡ unary_type op width }
{
    match op {
        CoreUnary::AndReduce => 1,
        CoreUnary::OrReduce => 1,
        CoreUnary::XorReduce => 1,
        CoreUnary::Neg => width,
        CoreUnary::Not => width,
        CoreUnary::Clz => width,
        CoreUnary::Ctz => width,
        CoreUnary::Rev => width,
    }
}

pub(crate) fn binary(alloc: Global, op: CoreBinary, a: &Ty, b: &Ty) -> Result<Ty, Stop>
    ensures { IfOk result (λ t. if_node (with_both (bits_width a.now) (bits_width b.now) (binary_type op)) ≡ Some t) }
{
    let v = width_of(a)?;
    let w = width_of(b)?;
    let width = binary_width(op, v, w)?;
    within(alloc, Ty::Bits(width))
}

/// How wide an operation on words of these widths is.
fn binary_width(op: CoreBinary, v: u64, w: u64) -> Result<u64, Stop>
    ensures { IfOk result (λ width. binary_type op v w ≡ Some (Ty.Bits width)) }
{
    match op {
        CoreBinary::Concat => joined_width(v, w),
        CoreBinary::Shl => Ok(v),
        CoreBinary::Shr(_) => Ok(v),
        CoreBinary::Eq => where_same(v, w, 1),
        CoreBinary::Ne => where_same(v, w, 1),
        CoreBinary::Lt(_) => where_same(v, w, 1),
        CoreBinary::Le(_) => where_same(v, w, 1),
        CoreBinary::Gt(_) => where_same(v, w, 1),
        CoreBinary::Ge(_) => where_same(v, w, 1),
        CoreBinary::Mul => where_same(v, w, v),
        CoreBinary::Div => where_same(v, w, v),
        CoreBinary::Rem => where_same(v, w, v),
        CoreBinary::Add => where_same(v, w, v),
        CoreBinary::Sub => where_same(v, w, v),
        CoreBinary::And => where_same(v, w, v),
        CoreBinary::Xor => where_same(v, w, v),
        CoreBinary::Or => where_same(v, w, v),
    }
}

/// How wide two words are behind one another.
fn joined_width(v: u64, w: u64) -> Result<u64, Stop>
    ensures { IfOk result (λ width. where_true (nat_le (v + w) 128) (Some (Ty.Bits (v + w))) ≡ Some (Ty.Bits width)) }
{
    if v <= 128 && w <= 128 - v {
        Ok(v + w)
    } else {
        Err(Stop::Untyped)
    }
}

/// This width, where the other two are one.
fn where_same(v: u64, w: u64, width: u64) -> Result<u64, Stop>
    ensures { IfOk result (λ x. where_true (v == w) (Some (Ty.Bits width)) ≡ Some (Ty.Bits x)) }
{
    if v == w {
        Ok(width)
    } else {
        Err(Stop::Untyped)
    }
}

pub(crate) fn cast(alloc: Global, width: u8, a: &Ty) -> Result<Ty, Stop>
    ensures { IfOk result (λ t. if_node (and_then (bits_width a.now) (λ v. where_true (is_width width) (Some (Ty.Bits width)))) ≡ Some t) }
{
    width_of(a)?;
    bits_of(alloc, width)
}

pub(crate) fn slice(alloc: Global, from: u8, width: u8, a: &Ty) -> Result<Ty, Stop>
    ensures { IfOk result (λ t. if_node (and_then (bits_width a.now) (λ v. where_true (nat_lt 0 width && nat_le (from + width) v) (Some (Ty.Bits width)))) ≡ Some t) }
{
    let all = width_of(a)?;
    if is_inside(from, width, all) {
        within(alloc, Ty::Bits(u64::from(width)))
    } else {
        Err(Stop::Untyped)
    }
}

/// Whether so many bits, one at least, stand in all of them from this one on.
fn is_inside(from: u8, width: u8, all: u64) -> bool
    ensures { result ≡ (nat_lt 0 width && nat_le (from + width) all) }
{
    0 < width && u64::from(from) + u64::from(width) <= all
}

pub(crate) fn part(alloc: Global, width: u8, a: &Ty, start: &Ty) -> Result<Ty, Stop>
    ensures { IfOk result (λ t. if_node (with_both (bits_width a.now) (bits_width start.now) (λ v k. where_true (is_width width) (Some (Ty.Bits width)))) ≡ Some t) }
{
    width_of(a)?;
    width_of(start)?;
    bits_of(alloc, width)
}
