ghost use Rattle.std.specs.Prelude.{◌≡◌, ◌+◌, ◌<◌, ◌++◌, List, [], ◌∷◌, length, replicate, slice_get, slice_set, ◌^◌, OnOk, OnSome, ℕ, IfSome, IfNone, IfOk};
ghost use Rattle.base.specs.TopoOrder.Needs.{needs_of, AreClosed, Reaches};
ghost use Rattle.base.specs.declared.topo_order.walk.Mark.TheVariants.{New, Open, Done};
ghost use Rattle.base.specs.TopoOrder.Inner.Walk.{IsWalk, mark_of, taken_of, StayDone, GoOn};
ghost use Rattle.base.specs.TopoOrder.Inner.Work.{needs_left, things_left};

use sqlite_items::Items;
use std::alloc::{AllocError, Global};

/// How far a walk is with a thing.
#[derive(Clone, Copy, PartialEq, Eq)]
pub enum Mark {
    New,
    /// It stands on the path.
    Open,
    /// It stands in the order.
    Done,
}

/// A walk over needs: a path of things each of which needs the next, and the order of those that it has done with.
#[derive(Drop)]
pub struct Walk {
    pub marks: Vec<Mark>,
    /// How many of its needs were taken, of each thing.
    pub taken: Vec<usize>,
    pub path: Vec<u32>,
    pub order: Vec<u32>,
}

impl Walk {
    /// A walk over so many things, before its first step.
    pub fn new(alloc: Global, count: usize) -> Result<Walk, AllocError>
        ensures marks { IfOk result (λ walk. walk.marks.items ≡ replicate count New) }
        ensures taken { IfOk result (λ walk. walk.taken.items ≡ replicate count 0) }
        ensures path { IfOk result (λ walk. walk.path.items ≡ []) }
        ensures order { IfOk result (λ walk. walk.order.items ≡ []) }
    {
        Ok(Walk {
            marks: vec![in alloc; Mark::New; count]?,
            taken: vec![in alloc; 0; count]?,
            path: Vec::new(alloc),
            order: Vec::new(alloc),
        })
    }

    /// Goes on from a new thing until the path is empty again: then all that it reaches is done. Otherwise it answers a
    /// thing that needs itself.
    pub fn visit(&mut self, needs: &[Items<u32>], root: u32) -> Result<Option<u32>, AllocError>
        requires walk { IsWalk needs.now self.old.marks.items self.old.taken.items self.old.path.items self.old.order.items }
        requires closed { AreClosed needs.now }
        requires empty { self.old.path.items ≡ [] }
        requires inside { root < length needs.now }
        requires new { mark_of self.old.marks.items root ≡ New }
        ensures found { IfOk result (λ found. IfSome found (λ thing. Reaches needs.now thing thing)) }
        ensures walk { IfOk result (λ found. IfNone found (IsWalk needs.now self.new.marks.items self.new.taken.items self.new.path.items self.new.order.items)) }
        ensures empty { IfOk result (λ found. IfNone found (self.new.path.items ≡ [])) }
        ensures done { IfOk result (λ found. IfNone found (mark_of self.new.marks.items root ≡ Done)) }
        ensures more { IfOk result (λ found. IfNone found (StayDone self.old.marks.items self.new.marks.items)) }
    {
        self.enter(root)?;
        while let Some(top) = self.path.last().copied() {
            if let Some(thing) = self.step(needs, top)? {
                return Ok(Some(thing));
            }
        }
        Ok(None)
    }

    /// One step from the last thing on the path: to the next thing that it needs, or back where it has all. Where that
    /// thing stands on the path, it needs itself, and is the answer.
    fn step(&mut self, needs: &[Items<u32>], top: u32) -> Result<Option<u32>, AllocError>
        requires walk { IsWalk needs.now self.old.marks.items self.old.taken.items self.old.path.items self.old.order.items }
        requires closed { AreClosed needs.now }
        requires last { (front : List ℕ) × (self.old.path.items ≡ front ++ top ∷ []) }
        ensures found { IfOk result (λ found. IfSome found (λ thing. Reaches needs.now thing thing)) }
        ensures walk { IfOk result (λ found. IfNone found (IsWalk needs.now self.new.marks.items self.new.taken.items self.new.path.items self.new.order.items)) }
        ensures marks { IfOk result (λ found. IfNone found (GoOn self.old.marks.items self.new.marks.items)) }
        ensures less { IfOk result (λ found. IfNone found (
            needs_left needs.now self.new.taken.items + things_left self.new.marks.items
            < needs_left needs.now self.old.taken.items + things_left self.old.marks.items)) }
    {
        match self.next_need(needs, top) {
            Some(child) => match self.mark(child) {
                Mark::New => {
                    self.take(top);
                    self.enter(child)?;
                    Ok(None)
                }
                Mark::Open => Ok(Some(child)),
                Mark::Done => {
                    self.take(top);
                    Ok(None)
                }
            },
            None => {
                self.leave(top)?;
                Ok(None)
            }
        }
    }

    /// How far the walk is with a thing.
    pub fn mark(&self, thing: u32) -> Mark
        requires { thing < length self.now.marks.items }
        ensures { result ≡ mark_of self.now.marks.items thing }
    {
        self.marks[thing as usize]
    }

    /// The first need of a thing that wasn't taken.
    fn next_need(&self, needs: &[Items<u32>], thing: u32) -> Option<u32>
        requires known { thing < length self.now.taken.items }
        requires inside { thing < length needs.now }
        ensures need { result ≡ slice_get (needs_of needs.now thing) (taken_of self.now.taken.items thing) }
        ensures room { OnSome result (taken_of self.now.taken.items thing + 1 < 2 ^ 64) }
    {
        let at = self.taken[thing as usize];
        let all = &needs[thing as usize];
        if at < all.len() {
            all.get(at).copied()
        } else {
            None
        }
    }

    /// Takes a thing's next need.
    fn take(&mut self, thing: u32)
        requires known { thing < length self.old.taken.items }
        requires room { taken_of self.old.taken.items thing + 1 < 2 ^ 64 }
        ensures taken { self.new.taken.items ≡ slice_set self.old.taken.items thing (taken_of self.old.taken.items thing + 1) }
        ensures marks { self.new.marks.items ≡ self.old.marks.items }
        ensures path { self.new.path.items ≡ self.old.path.items }
        ensures order { self.new.order.items ≡ self.old.order.items }
    {
        self.taken[thing as usize] += 1;
    }

    /// Puts a thing at the end of the path.
    fn enter(&mut self, thing: u32) -> Result<(), AllocError>
        requires { thing < length self.old.marks.items }
        ensures marks { OnOk result (self.new.marks.items ≡ slice_set self.old.marks.items thing Open) }
        ensures path { OnOk result (self.new.path.items ≡ self.old.path.items ++ thing ∷ []) }
        ensures taken { OnOk result (self.new.taken.items ≡ self.old.taken.items) }
        ensures order { OnOk result (self.new.order.items ≡ self.old.order.items) }
    {
        self.marks[thing as usize] = Mark::Open;
        self.path.push(thing)?;
        Ok(())
    }

    /// Takes the last thing from the path, and puts it at the end of the order.
    fn leave(&mut self, last: u32) -> Result<(), AllocError>
        requires known { last < length self.old.marks.items }
        requires path { (front : List ℕ) × (self.old.path.items ≡ front ++ last ∷ []) }
        ensures marks { OnOk result (self.new.marks.items ≡ slice_set self.old.marks.items last Done) }
        ensures path { OnOk result ((front : List ℕ) × (self.old.path.items ≡ front ++ last ∷ []) × (self.new.path.items ≡ front)) }
        ensures taken { OnOk result (self.new.taken.items ≡ self.old.taken.items) }
        ensures order { OnOk result (self.new.order.items ≡ self.old.order.items ++ last ∷ []) }
    {
        let _last = self.path.pop();
        self.marks[last as usize] = Mark::Done;
        self.order.push(last)?;
        Ok(())
    }
}
