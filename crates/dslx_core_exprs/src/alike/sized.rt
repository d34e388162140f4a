//! Types in which each array has an element. A test takes time as the type is large.

ghost use Rattle.std.specs.Prelude.{◌≡◌, map};
ghost use Rattle.std.specs.List.{list_all};
ghost use Rattle.dslx_core.specs.Lowering.Steps.{is_sized as has_elements};

use dslx_meaning::DslxType;

/// Whether each array in the type has an element.
#[cycle(is_sized)]
pub fn is_sized(ty: &DslxType) -> bool
    ensures { result ≡ has_elements ty.now }
{
    match ty {
        DslxType::Bits(_, _) => true,
        DslxType::Tuple(parts) => are_sized(parts.as_slice()),
        DslxType::Array(part, count) => *count != 0 && is_sized(part.get()),
        DslxType::Struct(_, _, parts) => are_sized(parts.as_slice()),
        DslxType::Enum(_, _, _) => true,
        DslxType::Token => true,
    }
}

/// Whether each of the types is.
#[cycle(is_sized)]
fn are_sized(types: &[DslxType]) -> bool
    ensures { result ≡ list_all (λ b. b) (map has_elements types.now) }
{
    'types: for ty in types {
        if !is_sized(ty) {
            return false;
        }
    }
    true
}
