//! What the parts of a tree mention, in their order. An expression's parts are up to three: what stands first in it, second and third.

ghost use Rattle.std.specs.Prelude.{◌≡◌, map, OnOk};
ghost use Rattle.std.specs.Option.{option_map};
ghost use Rattle.dslx_tree.specs.declared.block.Stmt.{out-Stmt};
ghost use Rattle.dslx_tree.specs.declared.expr.Node.{out-Node};
ghost use Rattle.dslx_tree.specs.declared.pattern.Shape.{out-Shape};
ghost use Rattle.dslx_tree.specs.declared.type_expr.TypeNode.{out-TypeNode};
ghost use Rattle.dslx_meaning.specs.Rules.Mentions.{mentioned, mentioned_in_arg, mentioned_in_block, mentioned_in_type};
ghost use Rattle.dslx_check_items.specs.Inner.Walks.{behind, mentioning, mentioning_all, mentioning_if, running};
ghost use Rattle.dslx_check_items.specs.Inner.Parts.{in_arm, in_field, in_loop, in_stmt, number_mentions, pattern_mentions};
ghost use Rattle.dslx_check_items.specs.Inner.Levels.{block_walk, bounds_walk, field_walk, first_walk, let_walk, node_walk, second_walk, shape_walk, stmt_walk, third_walk, type_walk};
ghost use Rattle.dslx_check_items.specs.Inner.Plain.{walk_shown};

use crate::binds::{bind_behind, bind_pattern};
use crate::mention::Use;
use crate::walk::Walk;
use base::texts::Name;
use dslx_tree::{
    Arg, Arm, Block, Expr, FieldValue, For, Let, Node, Number, Pattern, Shape, Stmt, TypeExpr,
    TypeNode,
};
use std::alloc::AllocError;
use xb_value::Boxed;

/// What an expression mentions.
#[cycle(mention)]
#[tactic(auto, using(crate::proofs::OnMentions::Opened::expr_by_node))]
pub(crate) fn mention_expr<'a>(w: &mut Walk<'a>, expr: &'a Expr) -> Result<(), AllocError>
    ensures { OnOk result (walk_shown w.new ≡ mentioning (mentioned expr.now) (walk_shown w.old)) }
{
    mention_node(w, &expr.node)
}

#[cycle(mention)]
fn mention_node<'a>(w: &mut Walk<'a>, node: &'a Node) -> Result<(), AllocError>
    ensures { OnOk result (walk_shown w.new ≡ node_walk (out-Node node.now) (walk_shown w.old)) }
{
    mention_first(w, node)?;
    mention_second(w, node)?;
    mention_third(w, node)
}

#[cycle(mention)]
fn mention_first<'a>(w: &mut Walk<'a>, node: &'a Node) -> Result<(), AllocError>
    ensures { OnOk result (walk_shown w.new ≡ first_walk (out-Node node.now) (walk_shown w.old)) }
{
    match node {
        Node::Number(number) => mention_number(w, number),
        Node::Bool(_) => Ok(()),
        Node::Array(ty, _, _) => mention_type_if(w, ty),
        Node::Name(name) => w.value(name),
        Node::Member(choice, _) => w.mention(Use::Enum, &choice.name),
        Node::Call(name, _, _) => w.call(&name.name),
        Node::Tuple(parts) => mention_exprs(w, parts.as_slice()),
        Node::Struct(name, _, _) => w.mention(Use::Struct, &name.name),
        Node::Block(block) => mention_block(w, block.get()),
        Node::If(test, _, _) => mention_expr(w, test.get()),
        Node::Match(value, _) => mention_expr(w, value.get()),
        Node::For(turns) => mention_loop(w, turns.get()),
        Node::Index(array, _) => mention_expr(w, array.get()),
        Node::Slice(value, _, _) => mention_expr(w, value.get()),
        Node::Part(value, _, _) => mention_expr(w, value.get()),
        Node::Field(value, _) => mention_expr(w, value.get()),
        Node::Element(value, _, _) => mention_expr(w, value.get()),
        Node::Prefix(_, value) => mention_expr(w, value.get()),
        Node::Cast(value, _) => mention_expr(w, value.get()),
        Node::Binary(_, left, _) => mention_expr(w, left.get()),
    }
}

#[cycle(mention)]
fn mention_second<'a>(w: &mut Walk<'a>, node: &'a Node) -> Result<(), AllocError>
    ensures { OnOk result (walk_shown w.new ≡ second_walk (out-Node node.now) (walk_shown w.old)) }
{
    match node {
        Node::Array(_, elements, _) => mention_exprs(w, elements.as_slice()),
        Node::Call(_, parametric_args, _) => mention_args(w, parametric_args.as_slice()),
        Node::Struct(_, fields, _) => mention_fields(w, fields.as_slice()),
        Node::If(_, yes, _) => mention_block(w, yes.get()),
        Node::Match(_, arms) => mention_arms(w, arms.as_slice()),
        Node::Index(_, place) => mention_expr(w, place.get()),
        Node::Slice(_, from, _) => mention_expr(w, from.get()),
        Node::Part(_, start, _) => mention_expr(w, start.get()),
        Node::Cast(_, ty) => mention_type(w, ty.get()),
        Node::Binary(_, _, right) => mention_expr(w, right.get()),
        _ => Ok(()),
    }
}

#[cycle(mention)]
fn mention_third<'a>(w: &mut Walk<'a>, node: &'a Node) -> Result<(), AllocError>
    ensures { OnOk result (walk_shown w.new ≡ third_walk (out-Node node.now) (walk_shown w.old)) }
{
    match node {
        Node::Call(_, _, operands) => mention_exprs(w, operands.as_slice()),
        Node::Struct(_, _, others) => mention_expr_if(w, others),
        Node::If(_, _, no) => mention_expr(w, no.get()),
        Node::Slice(_, _, to) => mention_expr(w, to.get()),
        Node::Part(_, _, ty) => mention_type(w, ty.get()),
        _ => Ok(()),
    }
}

#[cycle(mention)]
fn mention_expr_if<'a>(w: &mut Walk<'a>, expr: &'a Option<Boxed<Expr>>) -> Result<(), AllocError>
    ensures { OnOk result (walk_shown w.new ≡ mentioning_if (option_map mentioned expr.now) (walk_shown w.old)) }
{
    match expr {
        Some(expr) => mention_expr(w, expr.get()),
        None => Ok(()),
    }
}

#[cycle(mention)]
fn mention_exprs<'a>(w: &mut Walk<'a>, exprs: &'a [Expr]) -> Result<(), AllocError>
    ensures { OnOk result (walk_shown w.new ≡ mentioning_all (map mentioned exprs.now) (walk_shown w.old)) }
{
    'exprs: for expr in exprs {
        mention_expr(w, expr)?;
    }
    Ok(())
}

#[cycle(mention)]
#[tactic(auto, using(crate::proofs::OnMentions::Opened::arg_by_value))]
pub(crate) fn mention_arg<'a>(w: &mut Walk<'a>, arg: &'a Arg) -> Result<(), AllocError>
    ensures { OnOk result (walk_shown w.new ≡ mentioning (mentioned_in_arg arg.now) (walk_shown w.old)) }
{
    mention_expr(w, &arg.value)
}

#[cycle(mention)]
pub(crate) fn mention_args<'a>(w: &mut Walk<'a>, args: &'a [Arg]) -> Result<(), AllocError>
    ensures { OnOk result (walk_shown w.new ≡ mentioning_all (map mentioned_in_arg args.now) (walk_shown w.old)) }
{
    'arguments: for arg in args {
        mention_arg(w, arg)?;
    }
    Ok(())
}

/// The value of a field; without one it is what its name stands for.
#[cycle(mention)]
#[tactic(auto, using(crate::proofs::OnMentions::Opened::field_by_value))]
fn mention_field<'a>(w: &mut Walk<'a>, field: &'a FieldValue) -> Result<(), AllocError>
    ensures { OnOk result (walk_shown w.new ≡ mentioning (in_field field.now) (walk_shown w.old)) }
{
    mention_value(w, &field.name.name, &field.value)
}

#[cycle(mention)]
fn mention_value<'a>(
    w: &mut Walk<'a>,
    name: &'a Name,
    value: &'a Option<Boxed<Expr>>,
) -> Result<(), AllocError>
    ensures { OnOk result (walk_shown w.new ≡ field_walk name.now value.now (walk_shown w.old)) }
{
    match value {
        Some(value) => mention_expr(w, value.get()),
        None => w.value(name),
    }
}

#[cycle(mention)]
fn mention_fields<'a>(w: &mut Walk<'a>, fields: &'a [FieldValue]) -> Result<(), AllocError>
    ensures { OnOk result (walk_shown w.new ≡ mentioning_all (map in_field fields.now) (walk_shown w.old)) }
{
    'fields: for field in fields {
        mention_field(w, field)?;
    }
    Ok(())
}

/// A number mentions what its type does, if one is written.
#[cycle(mention)]
#[tactic(auto, using(crate::proofs::OnMentions::Opened::number_by_type))]
fn mention_number<'a>(w: &mut Walk<'a>, number: &'a Number) -> Result<(), AllocError>
    ensures { OnOk result (walk_shown w.new ≡ mentioning (number_mentions number.now) (walk_shown w.old)) }
{
    mention_type_if(w, &number.ty)
}

#[cycle(mention)]
fn mention_type_if<'a>(w: &mut Walk<'a>, ty: &'a Option<Boxed<TypeExpr>>) -> Result<(), AllocError>
    ensures { OnOk result (walk_shown w.new ≡ mentioning_if (option_map mentioned_in_type ty.now) (walk_shown w.old)) }
{
    match ty {
        Some(ty) => mention_type(w, ty.get()),
        None => Ok(()),
    }
}

/// What a written type mentions.
#[cycle(mention)]
#[tactic(auto, using(crate::proofs::OnMentions::Opened::type_by_node))]
pub(crate) fn mention_type<'a>(w: &mut Walk<'a>, ty: &'a TypeExpr) -> Result<(), AllocError>
    ensures { OnOk result (walk_shown w.new ≡ mentioning (mentioned_in_type ty.now) (walk_shown w.old)) }
{
    mention_type_node(w, &ty.node)
}

#[cycle(mention)]
fn mention_type_node<'a>(w: &mut Walk<'a>, node: &'a TypeNode) -> Result<(), AllocError>
    ensures { OnOk result (walk_shown w.new ≡ type_walk (out-TypeNode node.now) (walk_shown w.old)) }
{
    match node {
        TypeNode::Bits(_, _) => Ok(()),
        TypeNode::Wide(_, width) => mention_expr(w, width.get()),
        TypeNode::Bool => Ok(()),
        TypeNode::Name(name) => w.mention(Use::Type, name),
        TypeNode::Tuple(parts) => mention_types(w, parts.as_slice()),
        TypeNode::Array(part, size) => {
            mention_type(w, part.get())?;
            mention_expr(w, size.get())
        }
    }
}

#[cycle(mention)]
fn mention_types<'a>(w: &mut Walk<'a>, types: &'a [TypeExpr]) -> Result<(), AllocError>
    ensures { OnOk result (walk_shown w.new ≡ mentioning_all (map mentioned_in_type types.now) (walk_shown w.old)) }
{
    'types: for ty in types {
        mention_type(w, ty)?;
    }
    Ok(())
}

/// What a pattern mentions; what it binds is bound later.
#[cycle(mention)]
#[tactic(auto, using(crate::proofs::OnMentions::Opened::pattern_by_shape))]
fn mention_pattern<'a>(w: &mut Walk<'a>, pattern: &'a Pattern) -> Result<(), AllocError>
    ensures { OnOk result (walk_shown w.new ≡ mentioning (pattern_mentions pattern.now) (walk_shown w.old)) }
{
    mention_shape(w, &pattern.shape)
}

#[cycle(mention)]
fn mention_shape<'a>(w: &mut Walk<'a>, shape: &'a Shape) -> Result<(), AllocError>
    ensures { OnOk result (walk_shown w.new ≡ shape_walk (out-Shape shape.now) (walk_shown w.old)) }
{
    match shape {
        Shape::Wild => Ok(()),
        Shape::Bool(_) => Ok(()),
        Shape::Number(number) => mention_number(w, number),
        Shape::Name(name) => w.mention(Use::Pattern, name),
        Shape::Member(choice, _) => w.mention(Use::Enum, &choice.name),
        Shape::Tuple(parts) => mention_patterns(w, parts.as_slice()),
    }
}

#[cycle(mention)]
fn mention_patterns<'a>(w: &mut Walk<'a>, patterns: &'a [Pattern]) -> Result<(), AllocError>
    ensures { OnOk result (walk_shown w.new ≡ mentioning_all (map pattern_mentions patterns.now) (walk_shown w.old)) }
{
    'patterns: for pattern in patterns {
        mention_pattern(w, pattern)?;
    }
    Ok(())
}

/// What a block mentions: each statement sees what those before it bind.
#[cycle(mention)]
#[tactic(auto, using(crate::proofs::OnMentions::Opened::block_by_parts))]
pub(crate) fn mention_block<'a>(w: &mut Walk<'a>, block: &'a Block) -> Result<(), AllocError>
    ensures { OnOk result (walk_shown w.new ≡ mentioning (mentioned_in_block block.now) (walk_shown w.old)) }
{
    mention_parts(w, block)
}

#[cycle(mention)]
fn mention_parts<'a>(w: &mut Walk<'a>, block: &'a Block) -> Result<(), AllocError>
    ensures { OnOk result (walk_shown w.new ≡ block_walk block.now (walk_shown w.old)) }
{
    let mark = w.len();
    mention_statements(w, block.statements.as_slice())?;
    mention_expr_if(w, &block.value)?;
    w.keep_first(mark);
    Ok(())
}

#[cycle(mention)]
fn mention_statements<'a>(w: &mut Walk<'a>, statements: &'a [Stmt]) -> Result<(), AllocError>
    ensures { OnOk result (walk_shown w.new ≡ running (map in_stmt statements.now) (walk_shown w.old)) }
{
    'statements: for statement in statements {
        mention_statement(w, statement)?;
    }
    Ok(())
}

/// What a statement mentions, and then what it binds.
#[cycle(mention)]
#[tactic(auto, using(crate::proofs::OnMentions::Opened::stmt_by_parts))]
fn mention_statement<'a>(w: &mut Walk<'a>, statement: &'a Stmt) -> Result<(), AllocError>
    ensures { OnOk result (walk_shown w.new ≡ behind (in_stmt statement.now) (walk_shown w.old)) }
{
    mention_kind(w, statement)
}

#[cycle(mention)]
fn mention_kind<'a>(w: &mut Walk<'a>, statement: &'a Stmt) -> Result<(), AllocError>
    ensures { OnOk result (walk_shown w.new ≡ stmt_walk (out-Stmt statement.now) (walk_shown w.old)) }
{
    match statement {
        Stmt::Let(binding) => mention_let(w, binding),
        Stmt::Bare(expr) => mention_expr(w, expr),
    }
}

#[cycle(mention)]
fn mention_let<'a>(w: &mut Walk<'a>, binding: &'a Let) -> Result<(), AllocError>
    ensures { OnOk result (walk_shown w.new ≡ let_walk binding.now (walk_shown w.old)) }
{
    mention_type_if(w, &binding.ty)?;
    mention_expr(w, &binding.value)?;
    mention_pattern(w, &binding.pattern)?;
    bind_pattern(w, &binding.pattern)
}

#[cycle(mention)]
fn mention_arms<'a>(w: &mut Walk<'a>, arms: &'a [Arm]) -> Result<(), AllocError>
    ensures { OnOk result (walk_shown w.new ≡ mentioning_all (map in_arm arms.now) (walk_shown w.old)) }
{
    'arms: for arm in arms {
        mention_arm(w, arm)?;
    }
    Ok(())
}

/// What an arm mentions: its value sees what its alternatives bind.
#[cycle(mention)]
#[tactic(auto, using(crate::proofs::OnMentions::Opened::arm_by_parts))]
fn mention_arm<'a>(w: &mut Walk<'a>, arm: &'a Arm) -> Result<(), AllocError>
    ensures { OnOk result (walk_shown w.new ≡ mentioning (in_arm arm.now) (walk_shown w.old)) }
{
    let mark = w.len();
    mention_patterns(w, arm.patterns.as_slice())?;
    bind_behind(w, arm.patterns.as_slice())?;
    mention_expr(w, &arm.value)?;
    w.keep_first(mark);
    Ok(())
}

/// What a loop mentions: its body sees what both patterns bind.
#[cycle(mention)]
#[tactic(auto, using(crate::proofs::OnMentions::Opened::loop_by_parts))]
fn mention_loop<'a>(w: &mut Walk<'a>, turns: &'a For) -> Result<(), AllocError>
    ensures { OnOk result (walk_shown w.new ≡ mentioning (in_loop turns.now) (walk_shown w.old)) }
{
    let mark = w.len();
    mention_bounds(w, turns)?;
    bind_pattern(w, &turns.index)?;
    bind_pattern(w, &turns.accumulator)?;
    mention_block(w, &turns.body)?;
    w.keep_first(mark);
    Ok(())
}

/// What a loop mentions outside its body.
#[cycle(mention)]
fn mention_bounds<'a>(w: &mut Walk<'a>, turns: &'a For) -> Result<(), AllocError>
    ensures { OnOk result (walk_shown w.new ≡ bounds_walk turns.now (walk_shown w.old)) }
{
    mention_expr(w, &turns.from)?;
    mention_expr(w, &turns.to)?;
    mention_expr(w, &turns.start)?;
    mention_type_if(w, &turns.ty)?;
    mention_pattern(w, &turns.index)?;
    mention_pattern(w, &turns.accumulator)
}
