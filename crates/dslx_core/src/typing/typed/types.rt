ghost use Rattle.std.specs.Prelude.{◌≡◌, true};
ghost use Rattle.dslx_meaning.specs.Types.{same_type};
ghost use Rattle.dslx_meaning.specs.Values.{type_of_value};
ghost use Rattle.dslx_meaning.specs.declared.ty.DslxType.{DslxType};
ghost use Rattle.dslx_meaning.specs.declared.value.DslxValue.{DslxValue};
ghost use Rattle.dslx_core.specs.Typing.Typed.Declared.{Declarations, IsDeclared};
ghost use Rattle.dslx_core.specs.Typing.Typed.Kinds.{is_of};

/// A value that is of a type has that type and no other.
pub fn a_value_has_one_type()
    ensures { (t : DslxType) (v : DslxValue) → is_of t v ≡ true → type_of_value v ≡ t }
{}

/// Structs and enums are compared by their names alone, but where the text declares them, types that are equal by the test
/// are one type.
pub fn equal_types_of_a_text_are_one()
    ensures { (types : Declarations) (t u : DslxType) → same_type t u ≡ true → IsDeclared types t → IsDeclared types u → t ≡ u }
{}
