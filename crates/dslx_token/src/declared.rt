//! The names that a text declares.

ghost use Rattle.std.specs.Prelude.{◌≡◌, ◌||◌, ℕ, List, bytes_eq, IfOk, OnOk};
ghost use Rattle.dslx_token.specs.Inner.Names.{AreDeclared, IsNoted, has_name, kind_by};
ghost use Rattle.dslx_token.specs.Kinds.{heads_callable, heads_struct, heads_type, kind_behind};

use crate::rules::kind::{
    ARGS, ARROW, AS, BOTHNAME, DOT, END, FIELDS, FN, FUNNAME, LBRACE, LT, NAME, PATH, PROC, STRUCT,
    STRUCTNAME, TYPE, TYPENAME,
};
use crate::token::Token;
use std::alloc::{AllocError, Global};
use std::collections::HashSet;

/// A set of names.
type Names<'a> = HashSet<&'a [u8]>;

/// Puts a name into a set.
fn insert<'a>(names: &mut Names<'a>, name: &'a [u8]) -> Result<(), AllocError>
    ensures { OnOk result ((q : List ℕ) → has_name names.new q ≡ (bytes_eq name.now q || has_name names.old q)) }
{
    names.insert(name)?;
    Ok(())
}

/// Whether a name is in a set.
fn has_name(names: &Names, name: &[u8]) -> bool
    ensures { result ≡ has_name names.now name.now }
{
    names.contains(name)
}

/// The names that a text declares, by what it declares them as.
#[derive(Drop)]
pub struct Declared<'a> {
    types: Names<'a>,
    callables: Names<'a>,
    structs: Names<'a>,
}

impl<'a> Declared<'a> {
    /// The names that the tokens declare.
    pub fn by(alloc: Global, tokens: &[Token<'a>]) -> Result<Declared<'a>, AllocError>
        ensures types { IfOk result (λ d. AreDeclared heads_type tokens.now d.types) }
        ensures callables { IfOk result (λ d. AreDeclared heads_callable tokens.now d.callables) }
        ensures structs { IfOk result (λ d. AreDeclared heads_struct tokens.now d.structs) }
    {
        let mut declared = Declared {
            types: HashSet::new(alloc),
            callables: HashSet::new(alloc),
            structs: HashSet::new(alloc),
        };
        let mut before = END;
        for token in tokens {
            declared.note(before, token.bytes())?;
            before = token.kind();
        }
        Ok(declared)
    }

    /// Notes a name behind a token of some kind, where that declares it.
    fn note(&mut self, before: u8, name: &'a [u8]) -> Result<(), AllocError>
        ensures types { OnOk result (IsNoted (heads_type before) name.now self.old.types self.new.types) }
        ensures callables { OnOk result (IsNoted (heads_callable before) name.now self.old.callables self.new.callables) }
        ensures structs { OnOk result (IsNoted (heads_struct before) name.now self.old.structs self.new.structs) }
    {
        match before {
            TYPE => insert(&mut self.types, name),
            FN | PROC => insert(&mut self.callables, name),
            STRUCT => insert(&mut self.structs, name),
            _ => Ok(()),
        }
    }

    /// The kind of a token behind one of another kind, from its kind by itself.
    pub fn kind_behind(&self, before: u8, kind: u8, bytes: &[u8]) -> u8
        ensures { result ≡ kind_behind (kind_by self.now.types self.now.callables self.now.structs) before kind bytes.now }
    {
        match kind {
            NAME if matches!(before, DOT | PATH | AS | ARROW) => NAME,
            NAME => self.name_kind(bytes),
            LT if matches!(before, FUNNAME | BOTHNAME) => ARGS,
            LBRACE if matches!(before, STRUCTNAME | BOTHNAME) => FIELDS,
            _ => kind,
        }
    }

    /// The kind of a name.
    fn name_kind(&self, name: &[u8]) -> u8
        ensures { result ≡ kind_by self.now.types self.now.callables self.now.structs name.now }
    {
        if has_name(&self.types, name) {
            return TYPENAME;
        }
        match (
            has_name(&self.callables, name),
            has_name(&self.structs, name),
        ) {
            (true, true) => BOTHNAME,
            (true, false) => FUNNAME,
            (false, true) => STRUCTNAME,
            (false, false) => NAME,
        }
    }
}
