//! Items.

use crate::shape::part::Parts;
use crate::shape::procs::add_proc;
use dslx_tree::{
    Alias, Constant, Definition, Enum, Field, Function, Item, Member, Parametric, Struct,
};

pub fn add_item<'a>(parts: &mut Parts<'a>, item: &'a Item) {
    if item.is_public {
        parts.word("pub");
    }
    match &item.definition {
        Definition::Function(function) => add_function(parts, function),
        Definition::Proc(process) => add_proc(parts, process),
        Definition::Constant(constant) => add_constant(parts, constant),
        Definition::Alias(alias) => add_alias(parts, alias),
        Definition::Struct(structure) => add_struct(parts, structure),
        Definition::Enum(enumeration) => add_enum(parts, enumeration),
    }
}

/// Adds `(fn f < N : u32 = 4 > x : u8 -> u8 (block x))`.
fn add_function<'a>(parts: &mut Parts<'a>, function: &'a Function) {
    parts.place(function.span);
    parts.open("fn");
    parts.name(&function.name);
    add_parametrics(parts, function.parametrics.as_slice());
    add_fields(parts, function.arguments.as_slice());
    if let Some(result) = &function.result {
        parts.word("->");
        parts.ty(result);
    }
    parts.block(&function.body);
    parts.close();
}

/// Adds `< N : u32 = 4 >`, or nothing where there is no parameter.
pub fn add_parametrics<'a>(parts: &mut Parts<'a>, parametrics: &'a [Parametric]) {
    if parametrics.is_empty() {
        return;
    }
    parts.word("<");
    for parametric in parametrics {
        add_parametric(parts, parametric);
    }
    parts.word(">");
}

fn add_parametric<'a>(parts: &mut Parts<'a>, parametric: &'a Parametric) {
    parts.name(&parametric.name);
    parts.word(":");
    parts.ty(&parametric.ty);
    if let Some(default) = &parametric.default {
        parts.word("=");
        parts.expr(default);
    }
}

fn add_fields<'a>(parts: &mut Parts<'a>, fields: &'a [Field]) {
    for field in fields {
        parts.name(&field.name);
        parts.word(":");
        parts.ty(&field.ty);
    }
}

/// Adds `(const A : T = e)`.
fn add_constant<'a>(parts: &mut Parts<'a>, constant: &'a Constant) {
    parts.place(constant.span);
    parts.open("const");
    parts.name(&constant.name);
    if let Some(ty) = &constant.ty {
        parts.word(":");
        parts.ty(ty);
    }
    parts.word("=");
    parts.expr(&constant.value);
    parts.close();
}

/// Adds `(type A = T)`.
fn add_alias<'a>(parts: &mut Parts<'a>, alias: &'a Alias) {
    parts.place(alias.span);
    parts.open("type");
    parts.name(&alias.name);
    parts.word("=");
    parts.ty(&alias.ty);
    parts.close();
}

/// Adds `(struct S x : T)`.
fn add_struct<'a>(parts: &mut Parts<'a>, structure: &'a Struct) {
    parts.place(structure.span);
    parts.open("struct");
    parts.name(&structure.name);
    add_fields(parts, structure.fields.as_slice());
    parts.close();
}

/// Adds `(enum E : T A = e)`.
fn add_enum<'a>(parts: &mut Parts<'a>, enumeration: &'a Enum) {
    parts.place(enumeration.span);
    parts.open("enum");
    parts.name(&enumeration.name);
    parts.word(":");
    parts.ty(&enumeration.base);
    for member in enumeration.members.as_slice() {
        add_enum_member(parts, member);
    }
    parts.close();
}

fn add_enum_member<'a>(parts: &mut Parts<'a>, member: &'a Member) {
    parts.name(&member.name);
    parts.word("=");
    parts.expr(&member.value);
}
