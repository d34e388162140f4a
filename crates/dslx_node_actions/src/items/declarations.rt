//! What the rules of items make.

ghost use Rattle.std.specs.Prelude.{◌≡◌, OnOk};
ghost use Rattle.dslx_node_actions.specs.Items.Declarations.{alias, constant, enumeration, field, function, member, parametric, private_item, public_item, structure};

use dslx_actions::{
    NOWHERE, SemanticStacks, join, no_block, no_definition, no_expr, no_ident, no_type,
};
use dslx_tree::{
    Alias, Constant, Definition, Enum, Field, Function, Item, Member, Parametric, Struct,
};
use std::alloc::{AllocError, Global};
use xb_value::Seq;

/// `name : type = { expr }` between `<` and `>`
pub fn parametric(parts: &mut SemanticStacks, alloc: Global) -> Result<(), AllocError>
    ensures { OnOk result (parts.new ≡ parametric parts.old) }
{
    parts.skip(1);
    let parametric = Parametric {
        name: parts.idents.pop_or(no_ident(alloc)),
        ty: parts.types.pop_or(no_type()),
        default: parts.values.pop_or(None),
    };
    parts.parametrics.push(parametric)
}

/// `name : type`
pub fn field(parts: &mut SemanticStacks, alloc: Global) -> Result<(), AllocError>
    ensures { OnOk result (parts.new ≡ field parts.old) }
{
    parts.skip(1);
    let field = Field {
        name: parts.idents.pop_or(no_ident(alloc)),
        ty: parts.types.pop_or(no_type()),
    };
    parts.fields.push(field)
}

/// `name = expr` in an enum
pub fn member(parts: &mut SemanticStacks, alloc: Global) -> Result<(), AllocError>
    ensures { OnOk result (parts.new ≡ member parts.old) }
{
    parts.skip(1);
    let _place = parts.expr_spans.pop_or(NOWHERE);
    let member = Member {
        name: parts.idents.pop_or(no_ident(alloc)),
        value: parts.exprs.pop_or(no_expr()),
    };
    parts.members.push(member)
}

/// `fn name parametrics ( fields ) -> type block`
pub fn function(parts: &mut SemanticStacks, alloc: Global) -> Result<(), AllocError>
    ensures { OnOk result (parts.new ≡ function parts.old) }
{
    let token_spans = parts.take_token_spans(3);
    let arguments = parts.counts.pop_or(0);
    let parametrics = parts.counts.pop_or(0);
    let arguments = Seq::from_vec(parts.fields.take_top(arguments)?);
    let parametrics = Seq::from_vec(parts.parametrics.take_top(parametrics)?);
    let body = parts.blocks.pop_or(no_block(alloc));
    let function = Function {
        span: join(token_spans, body.span),
        name: parts.idents.pop_or(no_ident(alloc)),
        parametrics,
        arguments,
        result: parts.annotations.pop_or(None),
        body,
    };
    parts.definitions.push(Definition::Function(function))
}

/// `const name : type = expr ;`
pub fn constant(parts: &mut SemanticStacks, alloc: Global) -> Result<(), AllocError>
    ensures { OnOk result (parts.new ≡ constant parts.old) }
{
    let span = parts.take_token_spans(3);
    let _place = parts.expr_spans.pop_or(NOWHERE);
    let constant = Constant {
        span,
        name: parts.idents.pop_or(no_ident(alloc)),
        ty: parts.annotations.pop_or(None),
        value: parts.exprs.pop_or(no_expr()),
    };
    parts.definitions.push(Definition::Constant(constant))
}

/// `type name = type ;`
pub fn alias(parts: &mut SemanticStacks, alloc: Global) -> Result<(), AllocError>
    ensures { OnOk result (parts.new ≡ alias parts.old) }
{
    let span = parts.take_token_spans(3);
    let alias = Alias {
        span,
        name: parts.idents.pop_or(no_ident(alloc)),
        ty: parts.types.pop_or(no_type()),
    };
    parts.definitions.push(Definition::Alias(alias))
}

/// `struct name { fields }`
pub fn structure(parts: &mut SemanticStacks, alloc: Global) -> Result<(), AllocError>
    ensures { OnOk result (parts.new ≡ structure parts.old) }
{
    let span = parts.take_token_spans(3);
    let count = parts.counts.pop_or(0);
    let fields = Seq::from_vec(parts.fields.take_top(count)?);
    let structure = Struct {
        span,
        name: parts.idents.pop_or(no_ident(alloc)),
        fields,
    };
    parts.definitions.push(Definition::Struct(structure))
}

/// `enum name : type { members }`
pub fn enumeration(parts: &mut SemanticStacks, alloc: Global) -> Result<(), AllocError>
    ensures { OnOk result (parts.new ≡ enumeration parts.old) }
{
    let span = parts.take_token_spans(4);
    let count = parts.counts.pop_or(0);
    let members = Seq::from_vec(parts.members.take_top(count)?);
    let enumeration = Enum {
        span,
        name: parts.idents.pop_or(no_ident(alloc)),
        base: parts.types.pop_or(no_type()),
        members,
    };
    parts.definitions.push(Definition::Enum(enumeration))
}

/// A definition without `pub`.
pub fn private_item(parts: &mut SemanticStacks, alloc: Global) -> Result<(), AllocError>
    ensures { OnOk result (parts.new ≡ private_item parts.old) }
{
    let definition = parts.definitions.pop_or(no_definition(alloc));
    parts.items.push(Item {
        is_public: false,
        definition,
    })
}

/// A definition with `pub` before it.
pub fn public_item(parts: &mut SemanticStacks, alloc: Global) -> Result<(), AllocError>
    ensures { OnOk result (parts.new ≡ public_item parts.old) }
{
    parts.skip(1);
    let definition = parts.definitions.pop_or(no_definition(alloc));
    parts.items.push(Item {
        is_public: true,
        definition,
    })
}
