//! What the rules of ports, declarations, assignments and sets make.

ghost use Rattle.std.specs.Prelude.{◌≡◌, ◌≤◌, OnOk, IfOk};
ghost use Rattle.vlog_text.specs.Builder.Rules.{assignment_of, clocks_of, declaration_by, declaration_of, direction_of, no_range, port_by, port_of, range_of, resets_of, set_of, skip_ident, storage_of};
ghost use Rattle.vlog_text.specs.Builder.Parts.{range_width};

use crate::builder::ident::Ident;
use crate::builder::state::{State, no_atom, no_expr};
use base::texts::Name;
use sqlite_items::Items;
use std::alloc::{AllocError, Global};
use vlog_tree::{Assignment, Declaration, Direction, Port, Set, Storage};

impl<'a> State<'a> {
    /// `[ number : 0 ]`
    pub fn range_of(&mut self) -> Result<(), AllocError>
        ensures { OnOk result (self.new ≡ range_of self.old) }
    {
        let _zero = self.numbers.pop_or(0);
        let high = self.numbers.pop_or(0);
        self.ranges.push(Some(high))
    }

    pub fn no_range(&mut self) -> Result<(), AllocError>
        ensures { OnOk result (self.new ≡ no_range self.old) }
    {
        self.ranges.push(None)
    }

    pub fn direction_of(&mut self, direction: Direction) -> Result<(), AllocError>
        ensures { OnOk result (self.new ≡ direction_of direction self.old) }
    {
        self.directions.push(direction)?;
        self.starts.push(self.last.from)
    }

    /// `direction wire range name`
    pub fn port_of(&mut self, alloc: Global) -> Result<(), AllocError>
        ensures { OnOk result (self.new ≡ port_of self.old) }
    {
        let ident = self.idents.pop_or(Ident::none());
        let direction = self.directions.pop_or(Direction::Input);
        let range = self.ranges.pop_or(None);
        let from = self.starts.pop_or(0);
        let port = port(alloc, direction, ident.name(), range)?;
        self.signals.declare(ident.name())?;
        self.ports.push(port)?;
        let span = self.span_from(from);
        self.port_spans.push(span)
    }

    pub fn storage_of(&mut self, storage: Storage) -> Result<(), AllocError>
        ensures { OnOk result (self.new ≡ storage_of storage self.old) }
    {
        self.storages.push(storage)?;
        self.starts.push(self.last.from)
    }

    /// `storage range name ;`
    pub fn declaration_of(&mut self, alloc: Global) -> Result<(), AllocError>
        ensures { OnOk result (self.new ≡ declaration_of self.old) }
    {
        let ident = self.idents.pop_or(Ident::none());
        let storage = self.storages.pop_or(Storage::Wire);
        let range = self.ranges.pop_or(None);
        let from = self.starts.pop_or(0);
        let own = declaration(alloc, storage, ident.name(), range)?;
        self.signals.declare(ident.name())?;
        self.declarations.push(own)?;
        let span = self.span_from(from);
        self.declaration_spans.push(span)
    }

    /// `assign name = expr ;`
    pub fn assignment_of(&mut self) -> Result<(), AllocError>
        ensures { OnOk result (self.new ≡ assignment_of self.old) }
    {
        let target = self.pop_signal();
        let value = self.exprs.pop_or(no_expr());
        let from = self.starts.pop_or(0);
        self.assignments.push(Assignment { target, value })?;
        let span = self.span_from(from);
        self.assignment_spans.push(span)
    }

    /// `name <= atom ;`
    pub fn set_of(&mut self) -> Result<(), AllocError>
        ensures { OnOk result (self.new ≡ set_of self.old) }
    {
        let ident = self.idents.pop_or(Ident::none());
        let target = self.signals.signal(ident.name());
        let value = self.atoms.pop_or(no_atom());
        self.sets.push(Set { target, value })?;
        let span = self.span_from(ident.span().from);
        self.set_spans.push(span)
    }

    /// `clk` or `rst` in the head of a branch.
    pub fn skip_ident(&mut self)
        ensures { self.new ≡ skip_ident self.old }
    {
        let _ident = self.idents.pop_or(Ident::none());
    }

    /// `if (rst) begin sets end`
    pub fn resets_of(&mut self, alloc: Global)
        ensures { self.new ≡ resets_of self.old }
    {
        self.skip_ident();
        self.resets = std::mem::replace(&mut self.sets, Items::new(alloc));
        self.reset_spans = std::mem::replace(&mut self.set_spans, Items::new(alloc));
    }

    /// `else begin sets end`
    pub fn clocks_of(&mut self, alloc: Global)
        ensures { self.new ≡ clocks_of self.old }
    {
        self.clocks = std::mem::replace(&mut self.sets, Items::new(alloc));
        self.clock_spans = std::mem::replace(&mut self.set_spans, Items::new(alloc));
    }
}

#[tactic(auto, unfolding(crate::specs::Builder::Rules::port_by))]
fn port(
    alloc: Global,
    direction: Direction,
    name: &str,
    range: Option<u64>,
) -> Result<Port, AllocError>
    ensures { IfOk result (λ made. made ≡ port_by direction name.now range) }
{
    let name = name_of(alloc, name)?;
    Ok(Port {
        direction,
        name,
        width: range_width(range),
    })
}

#[tactic(auto, unfolding(crate::specs::Builder::Rules::declaration_by))]
fn declaration(
    alloc: Global,
    storage: Storage,
    name: &str,
    range: Option<u64>,
) -> Result<Declaration, AllocError>
    ensures { IfOk result (λ made. made ≡ declaration_by storage name.now range) }
{
    let name = name_of(alloc, name)?;
    Ok(Declaration {
        storage,
        name,
        width: range_width(range),
    })
}

fn name_of(alloc: Global, name: &str) -> Result<Name, AllocError>
    ensures { IfOk result (λ copied. copied ≡ name.now) }
{
    Ok(Name::from_string(String::from_str(alloc, name)?))
}

/// The width of a range whose highest bit is this one, and without a range.
fn range_width(range: Option<u64>) -> u64
    ensures width { result ≡ range_width range }
    ensures some { 1 ≤ result }
{
    match range {
        Some(high) => high.saturating_add(1),
        None => 1,
    }
}
