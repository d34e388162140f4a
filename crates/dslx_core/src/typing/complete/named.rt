ghost use Rattle.dslx_core.specs.Typing.Complete.HasValue.{AliasHasType, AreTyped, ConstantHasValue, DeclareMore, EnumHasType, IsWellTypedFound, StructHasType};
ghost use Rattle.dslx_meaning.specs.Rules.ItemRules.{alias_seen, constant_seen, enum_seen, struct_seen};
ghost use Rattle.dslx_meaning.specs.Rules.TypeEnvs.{GlobalEnv};
ghost use Rattle.dslx_tree.specs.declared.item.Alias.{Alias};
ghost use Rattle.dslx_tree.specs.declared.item.Constant.{Constant};
ghost use Rattle.dslx_tree.specs.declared.item.Enum.{Enum};
ghost use Rattle.dslx_tree.specs.declared.item.Struct.{Struct};
ghost use Rattle.dslx_meaning.specs.declared.ty.DslxType.{DslxType};
ghost use Rattle.dslx_meaning.specs.declared.value.DslxValue.{DslxValue};
ghost use Rattle.dslx_core.specs.Typing.Typed.Complete.{IsComplete};
ghost use Rattle.dslx_core.specs.Typing.Typed.Declared.{Declarations, IsDeclared};
ghost use Rattle.dslx_core.specs.Typing.Typed.Given.{GivesOf};
ghost use Rattle.std.specs.Prelude.{Option};

/// A constant whose text is well-typed has a value, which is of its own type and the one that it denotes.
pub fn constants_are_known()
    ensures { (known : GlobalEnv) → IsComplete known → AreTyped known → (c : Constant) → IsWellTypedFound known (constant_seen known c).found → ConstantHasValue known c }
{}

/// An alias, a struct and an enum whose text is well-typed name a type of the text, the one that they denote, and each
/// member of the enum has a value.
pub fn types_are_known()
    ensures of_alias { (known : GlobalEnv) → IsComplete known → AreTyped known → (a : Alias) → IsWellTypedFound known (alias_seen known a).found → AliasHasType known a }
    ensures of_struct { (known : GlobalEnv) → IsComplete known → AreTyped known → (s : Struct) → IsWellTypedFound known (struct_seen known s).found → StructHasType known s }
    ensures of_enum { (known : GlobalEnv) → IsComplete known → AreTyped known → (e : Enum) → IsWellTypedFound known (enum_seen known e).found → EnumHasType known e }
{}

/// Where more types are declared, each type that was one of the text is one still, and what gave a value of it does.
pub fn what_is_declared_stays()
    ensures types { (types more : Declarations) → DeclareMore types more → (t : DslxType) → IsDeclared types t → IsDeclared more t }
    ensures values { (types more : Declarations) → DeclareMore types more → (t : DslxType) (o : Option DslxValue) → GivesOf types t o → GivesOf more t o }
{}
