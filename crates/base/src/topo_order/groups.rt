//! Which things need themselves, and which need one another.

ghost use Rattle.std.specs.Prelude.{◌≡◌, ◌≢◌, ◌<◌, ◌≤◌, ◌^◌, ◌++◌, ◌∷◌, ◌+◌, ◌*◌, [], List, ℕ, Bool, true, false, nat_lt, length, replicate, take, slice_get, slice_set, Some, None, IfOk, OnOk, OnSome, MatchBool, All, drop, ◌==◌, if◌then◌else◌};
ghost use Rattle.base.specs.declared.topo_order.walk.Mark.TheVariants.{New, Open, Done};
ghost use Rattle.base.specs.TopoOrder.Needs.{AreClosed, AreGroups, Needs, needs_of, Reaches};
ghost use Rattle.base.specs.TopoOrder.Inner.Walk.{mark_of, taken_of, StayDone, GoOn};
ghost use Rattle.base.specs.TopoOrder.Inner.Work.{needs_left};
ghost use Rattle.base.specs.TopoOrder.Inner.Groups.{IsGroups, IsNoLast, Rises, AreJoined, all_done, all_flagged};
ghost use Rattle.base.specs.TopoOrder.Inner.Numbers.{AreNumbered, all_numbered};

use crate::topo_order::walk::Mark;
use sqlite_items::Items;
use std::alloc::{AllocError, Global};

/// Of each thing whether it needs itself, by way of others or not.
///
/// `needs[i]` lists what thing i needs. It takes time and memory linear in the things and needs, and doesn't recurse.
pub fn needing_themselves(alloc: Global, needs: &[Items<u32>]) -> Result<Vec<bool>, AllocError>
    requires closed { AreClosed needs.now }
    requires few { length needs.now < 2 ^ 32 }
    ensures size { IfOk result (λ loops. length loops.items ≡ length needs.now) }
    ensures loops { IfOk result (λ loops. (i : ℕ) (does : Bool) → slice_get loops.items i ≡ Some does
        → MatchBool does (Reaches needs.now i i) (¬ (Reaches needs.now i i))) }
{
    let groups = Groups::of(alloc, needs)?;
    Ok(groups.loops)
}

/// Of each thing its group: things have one where each needs the other, by way of others or not, and only there. It is one of
/// the things in it.
///
/// `needs[i]` lists what thing i needs. It takes time and memory linear in the things and needs, and doesn't recurse.
pub fn groups_of(alloc: Global, needs: &[Items<u32>]) -> Result<Vec<u32>, AllocError>
    requires closed { AreClosed needs.now }
    requires few { length needs.now < 2 ^ 32 }
    ensures { IfOk result (λ groups. AreGroups needs.now groups.items) }
{
    let groups = Groups::of(alloc, needs)?;
    Ok(groups.numbers)
}

/// A walk over needs that gathers what it meets into groups, in each of which each thing needs each other, by way of others
/// or not.
#[derive(Drop)]
pub struct Groups {
    pub marks: Vec<Mark>,
    /// How many of its needs were taken, of each thing.
    pub taken: Vec<usize>,
    /// Where it stands on the stack, of each open thing.
    pub positions: Vec<usize>,
    /// The open things whose needs are still taken, in the order of the stack.
    pub path: Vec<u32>,
    /// The open things, as they were met.
    pub stack: Vec<u32>,
    /// Where the groups begin on the stack.
    pub starts: Vec<usize>,
    /// Whether it is known to need itself, of each thing.
    pub loops: Vec<bool>,
    /// The thing at which its group began, of each thing that is done.
    pub numbers: Vec<u32>,
}

impl Groups {
    /// The walk when it has done with all things.
    fn of(alloc: Global, needs: &[Items<u32>]) -> Result<Groups, AllocError>
        requires closed { AreClosed needs.now }
        requires few { length needs.now < 2 ^ 32 }
        ensures walk { IfOk result (λ g. IsGroups needs.now g) }
        ensures numbers { IfOk result (λ g. AreNumbered needs.now g) }
        ensures done { IfOk result (λ g. (i : ℕ) → i < length needs.now → mark_of g.marks.items i ≡ Done) }
    {
        let mut groups = Groups::new(alloc, needs.len())?;
        for thing in 0..needs.len() as u32 {
            groups.go_on(needs, thing)?;
        }
        Ok(groups)
    }

    /// A walk over so many things, before its first step.
    pub fn new(alloc: Global, count: usize) -> Result<Groups, AllocError>
        ensures marks { IfOk result (λ g. g.marks.items ≡ replicate count New) }
        ensures taken { IfOk result (λ g. g.taken.items ≡ replicate count 0) }
        ensures positions { IfOk result (λ g. g.positions.items ≡ replicate count 0) }
        ensures path { IfOk result (λ g. g.path.items ≡ []) }
        ensures stack { IfOk result (λ g. g.stack.items ≡ []) }
        ensures starts { IfOk result (λ g. g.starts.items ≡ []) }
        ensures loops { IfOk result (λ g. g.loops.items ≡ replicate count false) }
        ensures numbers { IfOk result (λ g. g.numbers.items ≡ replicate count 0) }
    {
        Ok(Groups {
            marks: vec![in alloc; Mark::New; count]?,
            taken: vec![in alloc; 0; count]?,
            positions: vec![in alloc; 0; count]?,
            path: Vec::new(alloc),
            stack: Vec::new(alloc),
            starts: Vec::new(alloc),
            loops: vec![in alloc; false; count]?,
            numbers: vec![in alloc; 0; count]?,
        })
    }

    /// Has done with a thing and all that it reaches, if it hasn't yet.
    fn go_on(&mut self, needs: &[Items<u32>], thing: u32) -> Result<(), AllocError>
        requires walk { IsGroups needs.now self.old }
        requires numbers { AreNumbered needs.now self.old }
        requires closed { AreClosed needs.now }
        requires empty { self.old.path.items ≡ [] }
        requires inside { thing < length needs.now }
        ensures walk { OnOk result (IsGroups needs.now self.new) }
        ensures numbers { OnOk result (AreNumbered needs.now self.new) }
        ensures empty { OnOk result (self.new.path.items ≡ []) }
        ensures done { OnOk result (mark_of self.new.marks.items thing ≡ Done) }
        ensures more { OnOk result (StayDone self.old.marks.items self.new.marks.items) }
    {
        match self.mark(thing) {
            Mark::New => {
                self.visit(needs, thing)?;
                Ok(())
            }
            _ => Ok(()),
        }
    }

    /// Goes on from a new thing until the path is empty again: then all that it reaches is done.
    pub fn visit(&mut self, needs: &[Items<u32>], root: u32) -> Result<(), AllocError>
        requires walk { IsGroups needs.now self.old }
        requires numbers { AreNumbered needs.now self.old }
        requires closed { AreClosed needs.now }
        requires empty { self.old.path.items ≡ [] }
        requires inside { root < length needs.now }
        requires new { mark_of self.old.marks.items root ≡ New }
        ensures walk { OnOk result (IsGroups needs.now self.new) }
        ensures numbers { OnOk result (AreNumbered needs.now self.new) }
        ensures empty { OnOk result (self.new.path.items ≡ []) }
        ensures done { OnOk result (mark_of self.new.marks.items root ≡ Done) }
        ensures more { OnOk result (StayDone self.old.marks.items self.new.marks.items) }
    {
        self.enter(root)?;
        while let Some(top) = self.path.last().copied() {
            self.step(needs, top)?;
        }
        Ok(())
    }

    /// One step from the last thing on the path: to the next thing that it needs, or back where it has all.
    fn step(&mut self, needs: &[Items<u32>], top: u32) -> Result<(), AllocError>
        requires walk { IsGroups needs.now self.old }
        requires numbers { AreNumbered needs.now self.old }
        requires closed { AreClosed needs.now }
        requires last { (front : List ℕ) × (self.old.path.items ≡ front ++ top ∷ []) }
        ensures walk { OnOk result (IsGroups needs.now self.new) }
        ensures numbers { OnOk result (AreNumbered needs.now self.new) }
        ensures marks { OnOk result (GoOn self.old.marks.items self.new.marks.items) }
        ensures less { OnOk result (
            2 * needs_left needs.now self.new.taken.items + length self.new.path.items
            < 2 * needs_left needs.now self.old.taken.items + length self.old.path.items) }
    {
        match self.next_need(needs, top) {
            Some(child) => self.meet(needs, top, child),
            None => {
                self.leave(needs, top);
                Ok(())
            }
        }
    }

    /// Takes the next need of the last thing on the path: goes to it where it is new, and makes one group of the things from
    /// it on where it is open.
    fn meet(&mut self, needs: &[Items<u32>], top: u32, child: u32) -> Result<(), AllocError>
        requires walk { IsGroups needs.now self.old }
        requires numbers { AreNumbered needs.now self.old }
        requires inside { child < length needs.now }
        requires last { (front : List ℕ) × (self.old.path.items ≡ front ++ top ∷ []) }
        requires next { slice_get (needs_of needs.now top) (taken_of self.old.taken.items top) ≡ Some child }
        requires room { taken_of self.old.taken.items top + 1 < 2 ^ 64 }
        ensures walk { OnOk result (IsGroups needs.now self.new) }
        ensures numbers { OnOk result (AreNumbered needs.now self.new) }
        ensures marks { OnOk result (GoOn self.old.marks.items self.new.marks.items) }
        ensures less { OnOk result (
            2 * needs_left needs.now self.new.taken.items + length self.new.path.items
            < 2 * needs_left needs.now self.old.taken.items + length self.old.path.items) }
    {
        take(&mut self.taken, top);
        match self.mark(child) {
            Mark::New => {
                self.enter(child)?;
                Ok(())
            }
            Mark::Open => {
                notice(&mut self.loops, top, child);
                let at = self.positions[child as usize];
                join(&mut self.starts, at);
                Ok(())
            }
            Mark::Done => Ok(()),
        }
    }

    /// Leaves the last thing on the path, which has no more needs. Where a group begins at it, the group is done.
    fn leave(&mut self, needs: &[Items<u32>], top: u32)
        requires walk { IsGroups needs.now self.old }
        requires numbers { AreNumbered needs.now self.old }
        requires last { (front : List ℕ) × (self.old.path.items ≡ front ++ top ∷ []) }
        requires all { slice_get (needs_of needs.now top) (taken_of self.old.taken.items top) ≡ None }
        ensures walk { IsGroups needs.now self.new }
        ensures numbers { AreNumbered needs.now self.new }
        ensures marks { GoOn self.old.marks.items self.new.marks.items }
        ensures taken { self.new.taken.items ≡ self.old.taken.items }
        ensures path { self.old.path.items ≡ self.new.path.items ++ top ∷ [] }
    {
        pop_top(&mut self.path, top);
        let at = self.positions[top as usize];
        if ends_at(&mut self.starts, at) {
            self.close(at, top);
        }
    }

    /// Has done with the things from this position of the stack on, the group that began at the first one. Where there are two
    /// or more, each needs itself.
    fn close(&mut self, from: usize, first: u32)
        requires within { from ≤ length self.old.stack.items }
        requires marks { All (λ i. i < length self.old.marks.items) self.old.stack.items }
        requires loops { All (λ i. i < length self.old.loops.items) self.old.stack.items }
        requires numbers { All (λ i. i < length self.old.numbers.items) self.old.stack.items }
        ensures marks { self.new.marks.items ≡ all_done (drop from self.old.stack.items) self.old.marks.items }
        ensures taken { self.new.taken.items ≡ self.old.taken.items }
        ensures positions { self.new.positions.items ≡ self.old.positions.items }
        ensures path { self.new.path.items ≡ self.old.path.items }
        ensures stack { self.new.stack.items ≡ take from self.old.stack.items }
        ensures starts { self.new.starts.items ≡ self.old.starts.items }
        ensures loops { self.new.loops.items ≡ (if nat_lt (from + 1) (length self.old.stack.items)
            then all_flagged (drop from self.old.stack.items) self.old.loops.items else self.old.loops.items) }
        ensures numbers { self.new.numbers.items ≡ all_numbered (drop from self.old.stack.items) first self.old.numbers.items }
    {
        let group = &self.stack[from..];
        if 1 < group.len() {
            flag(&mut self.loops, group);
        }
        number(&mut self.numbers, group, first);
        finish(&mut self.marks, group);
        self.stack.truncate(from);
    }

    /// Puts a new thing on the path and on the stack, as a group of its own.
    fn enter(&mut self, thing: u32) -> Result<(), AllocError>
        requires marks { thing < length self.old.marks.items }
        requires positions { thing < length self.old.positions.items }
        ensures marks { OnOk result (self.new.marks.items ≡ slice_set self.old.marks.items thing Open) }
        ensures taken { OnOk result (self.new.taken.items ≡ self.old.taken.items) }
        ensures positions { OnOk result (self.new.positions.items ≡ slice_set self.old.positions.items thing (length self.old.stack.items)) }
        ensures path { OnOk result (self.new.path.items ≡ self.old.path.items ++ thing ∷ []) }
        ensures stack { OnOk result (self.new.stack.items ≡ self.old.stack.items ++ thing ∷ []) }
        ensures starts { OnOk result (self.new.starts.items ≡ self.old.starts.items ++ length self.old.stack.items ∷ []) }
        ensures loops { OnOk result (self.new.loops.items ≡ self.old.loops.items) }
        ensures numbers { OnOk result (self.new.numbers.items ≡ self.old.numbers.items) }
    {
        let at = self.stack.len();
        self.marks[thing as usize] = Mark::Open;
        self.positions[thing as usize] = at;
        self.path.push(thing)?;
        self.stack.push(thing)?;
        self.starts.push(at)?;
        Ok(())
    }

    /// How far the walk is with a thing.
    pub fn mark(&self, thing: u32) -> Mark
        requires { thing < length self.now.marks.items }
        ensures { result ≡ mark_of self.now.marks.items thing }
    {
        self.marks[thing as usize]
    }

    /// The first need of a thing that wasn't taken.
    fn next_need(&self, needs: &[Items<u32>], thing: u32) -> Option<u32>
        requires known { thing < length self.now.taken.items }
        requires inside { thing < length needs.now }
        ensures need { result ≡ slice_get (needs_of needs.now thing) (taken_of self.now.taken.items thing) }
        ensures room { OnSome result (taken_of self.now.taken.items thing + 1 < 2 ^ 64) }
    {
        let at = self.taken[thing as usize];
        let all = &needs[thing as usize];
        if at < all.len() {
            all.get(at).copied()
        } else {
            None
        }
    }
}

/// Takes a thing's next need.
fn take(taken: &mut Vec<usize>, thing: u32)
    requires known { thing < length taken.old.items }
    requires room { taken_of taken.old.items thing + 1 < 2 ^ 64 }
    ensures { taken.new.items ≡ slice_set taken.old.items thing (taken_of taken.old.items thing + 1) }
{
    taken[thing as usize] += 1;
}

/// Notes that a thing needs itself, if what it needs is itself.
fn notice(loops: &mut Vec<bool>, thing: u32, need: u32)
    requires { thing < length loops.old.items }
    ensures { loops.new.items ≡ (if need == thing then slice_set loops.old.items thing true else loops.old.items) }
{
    if need == thing {
        loops[thing as usize] = true;
    }
}

/// Takes the last thing from the path.
fn pop_top(path: &mut Vec<u32>, top: u32)
    requires { (front : List ℕ) × (path.old.items ≡ front ++ top ∷ []) }
    ensures { path.old.items ≡ path.new.items ++ top ∷ [] }
{
    let _top = path.pop();
}

/// Takes the last start.
fn pop_start(starts: &mut Vec<usize>, start: usize)
    requires { (front : List ℕ) × (starts.old.items ≡ front ++ start ∷ []) }
    ensures { starts.old.items ≡ starts.new.items ++ start ∷ [] }
{
    let _start = starts.pop();
}

/// Takes the last start, if it is at this position, and says whether it is.
fn ends_at(starts: &mut Vec<usize>, at: usize) -> bool
    ensures { MatchBool result (starts.old.items ≡ starts.new.items ++ at ∷ []) (IsNoLast starts.old.items at × (starts.new.items ≡ starts.old.items)) }
{
    match starts.last().copied() {
        Some(start) => if start == at {
            let _start = starts.pop();
            true
        } else {
            false
        },
        None => false,
    }
}

/// Makes one group of those that begin behind this position and the last one before.
fn join(starts: &mut Vec<usize>, at: usize)
    ensures { Rises starts.old.items → AreJoined starts.old.items starts.new.items at }
{
    while let Some(start) = starts.last().copied() {
        if start <= at {
            return;
        }
        pop_start(starts, start);
    }
}

/// Has done with things.
fn finish(marks: &mut Vec<Mark>, things: &[u32])
    requires { All (λ i. i < length marks.old.items) things.now }
    ensures { marks.new.items ≡ all_done things.now marks.old.items }
{
    for thing in things {
        marks[*thing as usize] = Mark::Done;
    }
}

/// Notes of things that each needs itself.
fn flag(loops: &mut Vec<bool>, things: &[u32])
    requires { All (λ i. i < length loops.old.items) things.now }
    ensures { loops.new.items ≡ all_flagged things.now loops.old.items }
{
    for thing in things {
        loops[*thing as usize] = true;
    }
}

/// Notes of things that their group began at this one.
fn number(numbers: &mut Vec<u32>, things: &[u32], first: u32)
    requires { All (λ i. i < length numbers.old.items) things.now }
    ensures { numbers.new.items ≡ all_numbered things.now first numbers.old.items }
{
    for thing in things {
        numbers[*thing as usize] = first;
    }
}
