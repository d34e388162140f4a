//! Tests and counts of types. Each takes time as the type is written: a size is one step, however large it is.

ghost use Rattle.std.specs.Prelude.{◌≡◌, ◌-◌, ◌^◌, ◌+◌, min, map};
ghost use Rattle.std.specs.Option.{option_copied};
ghost use Rattle.xb_value.specs.Width.{width_of, leaf_count};
ghost use Rattle.ir_tree.specs.Types.{bounded, ty_of};
ghost use Rattle.ir_tree.specs.NodeTypes.Inner.Scaled.{scaled};
ghost use Rattle.ir_tree.specs.NodeTypes.Types.{are_sizes, marks_of, levels_of, sizes_of, is_token, is_bits, is_bits_of, bits_width, same_numbers, same_type, each_same, is_array_of, is_array_sized, bits_in, parts_in};

use crate::IrType;

/// What stands in a type, and whether it is sound.
#[derive(Clone, Copy)]
pub struct Marks {
    /// `bits` stands in it.
    pub bits: bool,
    /// `token` stands in it.
    pub token: bool,
    /// No width and no size is 0, and the elements of each array have bits.
    pub sound: bool,
}

/// The number, at most 2^64 - 1.
pub fn bounded(number: u128) -> u64
    ensures { result ≡ bounded number }
{
    number.min(u128::from(u64::MAX)) as u64
}

fn are_sizes(sizes: &[u128]) -> bool
    ensures { result ≡ are_sizes sizes.now }
{
    sizes.iter().all(|size| 0 < *size)
}

/// What stands in the type.
pub fn marks_of(ty: &IrType) -> Marks
    ensures { result ≡ marks_of ty.now }
{
    match ty {
        IrType::Bits(width, sizes) => Marks {
            bits: true,
            token: false,
            sound: 0 < *width && are_sizes(sizes.as_slice()),
        },
        IrType::Token(sizes) => Marks {
            bits: false,
            token: true,
            sound: sizes.as_slice().is_empty(),
        },
        IrType::Tuple(parts, sizes) => {
            let mut marks = Marks {
                bits: false,
                token: false,
                sound: true,
            };
            'parts: for part in parts.as_slice() {
                let more = marks_of(part);
                marks = Marks {
                    bits: marks.bits || more.bits,
                    token: marks.token || more.token,
                    sound: marks.sound && more.sound,
                };
            }
            let has_elements = sizes.as_slice().is_empty() || marks.bits;
            Marks {
                bits: marks.bits,
                token: marks.token,
                sound: marks.sound && (are_sizes(sizes.as_slice()) && has_elements),
            }
        }
    }
}

/// How many tuples and arrays stand one in another, or 2^64 - 1 where they are more.
pub fn levels_of(ty: &IrType) -> u64
    ensures { result ≡ min (levels_of ty.now) (2 ^ 64 - 1) }
{
    match ty {
        IrType::Bits(_, sizes) => sizes.len() as u64,
        IrType::Token(sizes) => sizes.len() as u64,
        IrType::Tuple(parts, sizes) => {
            let mut most = 0u64;
            'parts: for part in parts.as_slice() {
                most = most.max(levels_of(part));
            }
            (sizes.len() as u64).saturating_add(most.saturating_add(1))
        }
    }
}

/// A count of an element, for arrays of these sizes.
fn times(count: u64, sizes: &[u128]) -> u64
    ensures { result ≡ scaled count sizes.now }
{
    let mut total = count;
    'sizes: for i in 0..sizes.len() {
        total = total.saturating_mul(bounded(sizes[sizes.len() - 1 - i]));
    }
    total
}

/// How many leaves a type has, or 2^64 - 1 where they are more.
#[tactic(auto, using(crate::proofs::OnNodeTypes::Counts::leaf_counts))]
pub fn leaves_of(ty: &IrType) -> u64
    ensures { result ≡ min (leaf_count (ty_of ty.now)) (2 ^ 64 - 1) }
{
    match ty {
        IrType::Bits(_, sizes) => times(1, sizes.as_slice()),
        IrType::Token(sizes) => times(0, sizes.as_slice()),
        IrType::Tuple(parts, sizes) => {
            let mut total = 0u64;
            'parts: for part in parts.as_slice() {
                total = total.saturating_add(leaves_of(part));
            }
            times(total, sizes.as_slice())
        }
    }
}

/// How many bits the flat word of a type has, or 2^64 - 1 where they are more.
#[tactic(auto, using(crate::proofs::OnNodeTypes::Counts::flat_widths))]
pub fn width_of(ty: &IrType) -> u64
    ensures { result ≡ min (width_of (ty_of ty.now)) (2 ^ 64 - 1) }
{
    match ty {
        IrType::Bits(width, sizes) => times(bounded(*width), sizes.as_slice()),
        IrType::Token(sizes) => times(0, sizes.as_slice()),
        IrType::Tuple(parts, sizes) => {
            let mut total = 0u64;
            'parts: for part in parts.as_slice() {
                total = total.saturating_add(width_of(part));
            }
            times(total, sizes.as_slice())
        }
    }
}

/// The sizes of the arrays around it, the outermost first.
pub fn sizes_of(ty: &IrType) -> &[u128]
    ensures { result.now ≡ sizes_of ty.now }
{
    match ty {
        IrType::Bits(_, sizes) => sizes.as_slice(),
        IrType::Token(sizes) => sizes.as_slice(),
        IrType::Tuple(_, sizes) => sizes.as_slice(),
    }
}

pub fn is_token(ty: &IrType) -> bool
    ensures { result ≡ is_token ty.now }
{
    match ty {
        IrType::Token(sizes) => sizes.as_slice().is_empty(),
        _ => false,
    }
}

/// The width, where the type is bits.
pub fn bits_in(ty: &IrType) -> Option<u128>
    ensures { result ≡ bits_in ty.now }
{
    match ty {
        IrType::Bits(width, sizes) => {
            if sizes.as_slice().is_empty() {
                Some(*width)
            } else {
                None
            }
        }
        _ => None,
    }
}

pub fn is_bits(ty: &IrType) -> bool
    ensures { result ≡ is_bits ty.now }
{
    match ty {
        IrType::Bits(_, sizes) => sizes.as_slice().is_empty(),
        _ => false,
    }
}

/// Whether it is bits of this width.
pub fn is_bits_of(width: u128, ty: &IrType) -> bool
    ensures { result ≡ is_bits_of width ty.now }
{
    match ty {
        IrType::Bits(own, sizes) => sizes.as_slice().is_empty() && width == *own,
        _ => false,
    }
}

/// The width of bits, 0 for others.
pub fn bits_width(ty: &IrType) -> u128
    ensures { result ≡ bits_width ty.now }
{
    match ty {
        IrType::Bits(width, _) => *width,
        _ => 0,
    }
}

fn same_numbers(numbers: &[u128], others: &[u128]) -> bool
    ensures { result ≡ same_numbers numbers.now others.now }
{
    match numbers {
        [] => others.is_empty(),
        [number, rest @ ..] => match others {
            [] => false,
            [other, more @ ..] => number == other && same_numbers(rest, more),
        },
    }
}

/// Whether the two are one type.
#[cycle(same)]
pub fn same_type(ty: &IrType, other: &IrType) -> bool
    ensures { result ≡ same_type ty.now other.now }
{
    match (ty, other) {
        (IrType::Bits(width, sizes), IrType::Bits(others, more)) => width == others
            && same_numbers(sizes.as_slice(), more.as_slice()),
        (IrType::Token(sizes), IrType::Token(more)) => {
            same_numbers(sizes.as_slice(), more.as_slice())
        }
        (IrType::Tuple(parts, sizes), IrType::Tuple(others, more)) => {
            same_types(parts.as_slice(), others.as_slice())
                && same_numbers(sizes.as_slice(), more.as_slice())
        }
        _ => false,
    }
}

/// Whether the two lists have the same types.
#[cycle(same)]
pub fn same_types(types: &[IrType], others: &[IrType]) -> bool
    ensures { result ≡ each_same (map same_type types.now) others.now }
{
    if types.len() != others.len() {
        return false;
    }
    'types: for i in 0..types.len() {
        if !same_type(&types[i], &others[i]) {
            return false;
        }
    }
    true
}

/// Whether the first is an array of the second.
pub fn is_array_of(array: &IrType, element: &IrType) -> bool
    ensures { result ≡ is_array_of array.now element.now }
{
    match (array, element) {
        (IrType::Bits(width, sizes), IrType::Bits(others, more)) => match sizes.as_slice() {
            [] => false,
            [_, rest @ ..] => width == others && same_numbers(rest, more.as_slice()),
        },
        (IrType::Token(sizes), IrType::Token(more)) => match sizes.as_slice() {
            [] => false,
            [_, rest @ ..] => same_numbers(rest, more.as_slice()),
        },
        (IrType::Tuple(parts, sizes), IrType::Tuple(others, more)) => match sizes.as_slice() {
            [] => false,
            [_, rest @ ..] => same_types(parts.as_slice(), others.as_slice())
                && same_numbers(rest, more.as_slice()),
        },
        _ => false,
    }
}

/// Whether it is an array of so many elements.
pub fn is_array_sized(count: u128, ty: &IrType) -> bool
    ensures { result ≡ is_array_sized count ty.now }
{
    match sizes_of(ty) {
        [] => false,
        [size, ..] => count == *size,
    }
}

/// The parts of a tuple.
pub fn parts_of(ty: &IrType) -> Option<&[IrType]>
    ensures { option_copied result ≡ parts_in ty.now }
{
    match ty {
        IrType::Tuple(parts, sizes) => {
            if sizes.as_slice().is_empty() {
                Some(parts.as_slice())
            } else {
                None
            }
        }
        _ => None,
    }
}
