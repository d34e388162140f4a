ghost use Rattle.std.specs.Prelude.{◌≡◌, ◌<◌, ◌≤◌, ◌+◌, ◌++◌, ◌∷◌, ℕ, suc, true, false, List, Option, MatchOption, IfNone, Some, length, slice_get, option_map};
ghost use Rattle.task_queue.specs.declared.lane.tally.Tally.{Tally};
ghost use Rattle.task_queue.specs.Lane.Steps.{IsExhausted};
ghost use Rattle.task_queue.specs.Lane.Handles.{IsWindow, IsThiefOf, window_deque, thief_knows};
ghost use Rattle.task_queue.specs.Seats.{Each, AreApart, AreWindows, AreRights, rights_know};
ghost use Rattle.task_queue.specs.Inner.Exchange.{MayExchangeAll, AreExchanged, MayUniteAll, AreUnited, gets, gives};
ghost use Rattle.task_queue.specs.Inner.Looks.{IsAnyLane, KeepSeats, IsTakenAmong, IsStolenBy};
ghost use Rattle.task_queue.specs.Passes.{AreExhausted, IsStolen, IsTaskPass, IsSamePass, KnowsRun, IsDealt, OwnsAll, FoundEmpty, HasRoom, HasRoomOn, owned, places, seats, put_by, taken_by};

use crate::Numbered;
use crate::exchange::{part, part_all, unite, unite_all};
use crate::lane::{Thief, Window};
use crate::seat::{Seat, take_among};
use std::alloc::Global;
use std::sync::Wait;

/// The tasks that wait to run, in a deque for each worker. This is what all threads share of it.
#[derive(Drop)]
pub struct TaskQueue<N: Drop, T: Numbered<N>> {
    pub(crate) windows: Vec<Window<N, T>>,
}

/// What a thread may do with a queue: it owns one deque or more, and may steal from each other.
#[derive(Drop)]
pub struct TaskPass<N: Drop, T: Numbered<N>> {
    pub(crate) first: Seat<N, T>,
    pub(crate) more: Vec<Seat<N, T>>,
}

impl<N: Drop, T: Numbered<N>> TaskPass<N, T> {
    /// The number of the first deque that the pass owns.
    pub fn number(&self) -> u32
        ensures { result ≡ self.now.first.number }
    {
        self.first.number
    }
}

impl<N: Drop, T: Numbered<N>> TaskQueue<N, T> {
    /// A task is put at the end of the pass's first deque. It takes no memory.
    pub fn put(&self, pass: &mut TaskPass<N, T>, task: T)
        requires pass { IsTaskPass self.now pass.old }
        requires room { HasRoom 1 pass.old }
        requires run { KnowsRun (Some (T.run_of task)) pass.old }
        requires fact { T.fact task }
        ensures pass { IsTaskPass self.now pass.new × IsSamePass pass.old pass.new }
        ensures room { (n : ℕ) → HasRoom (suc n) pass.old → HasRoom n pass.new }
        ensures put { (h : ℕ → ℕ) → (put_by h pass.new ≡ put_by h pass.old + h (T.number_of task)) × (taken_by h pass.new ≡ taken_by h pass.old) }
    {
        pass.first.lane.put(task);
    }

    /// The front task of the first of the pass's deques that has one, or one that is stolen from the others, in the order of their numbers
    /// from the first one's on, unless each deque was empty at a moment of its own. If the pass owns all deques, then all that was put was
    /// taken.
    pub fn take<R: Wait>(&self, rt: &R, pass: &mut TaskPass<N, T>) -> Option<T>
        requires { IsTaskPass self.now pass.old }
        ensures pass { IsTaskPass self.now pass.new × IsSamePass pass.old pass.new }
        ensures room { (n : ℕ) → HasRoom n pass.old → HasRoom n pass.new }
        ensures put { (h : ℕ → ℕ) → put_by h pass.new ≡ put_by h pass.old }
        ensures taken { MatchOption result
            (((h : ℕ → ℕ) → taken_by h pass.new ≡ taken_by h pass.old) × FoundEmpty pass.old)
            (λ task. ((h : ℕ → ℕ) → taken_by h pass.new ≡ taken_by h pass.old + h (T.number_of task))
            × ((run : Option N) → KnowsRun run pass.old → run ≡ Some (T.run_of task)) × T.fact task) }
        ensures all { IfNone result (OwnsAll self.now pass.old → IsDealt pass.old → (h : ℕ → ℕ) → put_by h pass.new ≡ taken_by h pass.new) }
    {
        match take_own(pass) {
            Some(task) => Some(task),
            None => steal(
                rt,
                self.windows.as_slice(),
                &mut pass.first.rights,
                pass.first.number as usize,
            ),
        }
    }

    /// A pass that owns the last deque of this one, which has two or more. It takes no memory.
    pub fn split(&self, alloc: Global, pass: &mut TaskPass<N, T>) -> TaskPass<N, T>
        requires pass { IsTaskPass self.now pass.old × IsDealt pass.old }
        requires two { 2 ≤ length (seats pass.old) }
        ensures passes { IsTaskPass self.now pass.new × IsTaskPass self.now result × IsDealt pass.new × IsDealt result }
        ensures deques { (owned pass.old ≡ owned pass.new ++ owned result) × (length (owned result) ≡ 1) × (places pass.new ≡ places pass.old) }
        ensures run { (run : Option N) → KnowsRun run pass.old → KnowsRun run pass.new × KnowsRun run result }
        ensures room { (d n : ℕ) → HasRoomOn d n pass.old → HasRoomOn d n pass.new × HasRoomOn d n result }
        ensures sums { (h : ℕ → ℕ) → (put_by h pass.new + put_by h result ≡ put_by h pass.old) × (taken_by h pass.new + taken_by h result ≡ taken_by h pass.old) }
    {
        let mut seat = match pass.more.pop() {
            Some(seat) => seat,
            None => unreachable!(),
        };
        leave(pass, &mut seat);
        TaskPass {
            first: seat,
            more: Vec::new(alloc),
        }
    }

    /// What another pass owns comes to this one, which has places for it, as the one that `make` gave always has. It takes no memory.
    pub fn join(&self, pass: &mut TaskPass<N, T>, other: TaskPass<N, T>)
        requires pass { IsTaskPass self.now pass.old × IsDealt pass.old }
        requires other { IsTaskPass self.now other × IsDealt other }
        requires apart { AreApart (owned pass.old) (owned other) }
        requires reserve { length (owned pass.old) + length (owned other) ≤ places pass.old }
        ensures pass { IsTaskPass self.now pass.new × IsDealt pass.new }
        ensures deques { (owned pass.new ≡ owned pass.old ++ owned other) × (places pass.old ≤ places pass.new) }
        ensures run { (run : Option N) → KnowsRun run pass.old → KnowsRun run other → KnowsRun run pass.new }
        ensures room { (d n : ℕ) → HasRoomOn d n pass.old → HasRoomOn d n other → HasRoomOn d n pass.new }
        ensures sums { (h : ℕ → ℕ) → (put_by h pass.new ≡ put_by h pass.old + put_by h other) × (taken_by h pass.new ≡ taken_by h pass.old + taken_by h other) }
    {
        let TaskPass {
            mut first,
            mut more,
        } = other;
        meet(pass, &mut first);
        meet_all(pass, &mut more);
        take_in(pass, first, more);
    }
}

/// The front task of the first of the pass's deques that has one.
fn take_own<N: Drop, T: Numbered<N>>(pass: &mut TaskPass<N, T>) -> Option<T>
    requires { Each IsAnyLane (seats pass.old) }
    ensures keep { (windows : List (Window _ _)) → KeepSeats windows (seats pass.old) (seats pass.new) }
    ensures same { (pass.new.first.number ≡ pass.old.first.number) × (pass.new.first.rights ≡ pass.old.first.rights) × (places pass.new ≡ places pass.old) }
    ensures room { (n : ℕ) → HasRoom n pass.old → HasRoom n pass.new }
    ensures taken { IsTakenAmong T.number_of T.run_of T.fact (seats pass.old) (seats pass.new) result }
{
    match pass.first.lane.take() {
        Some(task) => Some(task),
        None => take_among(&mut pass.more),
    }
}

/// The first task of a deque whose number isn't this one, in the order of their numbers from this one on.
fn steal<N: Drop, T: Numbered<N>, R: Wait>(
    rt: &R,
    windows: &[Window<N, T>],
    rights: &mut Vec<Option<Thief<N, T>>>,
    number: usize,
) -> Option<T>
    requires windows { AreWindows windows.now }
    requires rights { AreRights windows.now rights.old.items }
    requires number { number < length windows.now }
    ensures rights { AreRights windows.now rights.new.items }
    ensures stolen { MatchOption result
        ((rights_know rights.new.items ≡ rights_know rights.old.items) × AreExhausted number (rights_know rights.old.items))
        (λ task. IsStolen T.number_of T.run_of T.fact (rights_know rights.old.items) (rights_know rights.new.items) task) }
{
    match steal_among(rt, windows, rights, number + 1, windows.len()) {
        Some(task) => Some(task),
        None => steal_among(rt, windows, rights, 0, number),
    }
}

/// The first task of the deques from this number to that one, but for those on which there is no right.
fn steal_among<N: Drop, T: Numbered<N>, R: Wait>(
    rt: &R,
    windows: &[Window<N, T>],
    rights: &mut Vec<Option<Thief<N, T>>>,
    from: usize,
    to: usize,
) -> Option<T>
    requires windows { AreWindows windows.now }
    requires rights { AreRights windows.now rights.old.items }
    requires within { to ≤ length windows.now }
    ensures rights { AreRights windows.now rights.new.items }
    ensures stolen { MatchOption result
        ((rights_know rights.new.items ≡ rights_know rights.old.items)
        × ((k : ℕ) (v : Tally N) → slice_get (rights_know rights.old.items) k ≡ Some (Some v) → from ≤ k → k < to → IsExhausted v))
        (λ task. IsStolen T.number_of T.run_of T.fact (rights_know rights.old.items) (rights_know rights.new.items) task) }
{
    for k in from..to {
        if let Some(task) = steal_at(rt, windows, rights, k) {
            return Some(task);
        }
    }
    None
}

/// The first task of the deque with this number.
fn steal_at<N: Drop, T: Numbered<N>, R: Wait>(
    rt: &R,
    windows: &[Window<N, T>],
    rights: &mut Vec<Option<Thief<N, T>>>,
    k: usize,
) -> Option<T>
    requires windows { AreWindows windows.now }
    requires rights { AreRights windows.now rights.old.items }
    requires within { k < length windows.now }
    ensures rights { AreRights windows.now rights.new.items }
    ensures stolen { MatchOption result
        ((rights_know rights.new.items ≡ rights_know rights.old.items) × ((v : Tally N) → slice_get (rights_know rights.old.items) k ≡ Some (Some v) → IsExhausted v))
        (λ task. IsStolen T.number_of T.run_of T.fact (rights_know rights.old.items) (rights_know rights.new.items) task) }
{
    steal_by(rt, &windows[k], &mut rights[k])
}

/// The first task of a deque, if there is a right on it.
fn steal_by<N: Drop, T: Numbered<N>, R: Wait>(
    rt: &R,
    window: &Window<N, T>,
    right: &mut Option<Thief<N, T>>,
) -> Option<T>
    requires window { IsWindow window.now }
    requires right { (thief : Thief _ _) → right.old ≡ Some thief → IsThiefOf (window_deque window.now) thief }
    ensures right { (thief : Thief _ _) → right.new ≡ Some thief → IsThiefOf (window_deque window.now) thief }
    ensures stolen { IsStolenBy T.number_of T.run_of T.fact (option_map thief_knows right.old) (option_map thief_knows right.new) result }
{
    match right {
        Some(thief) => window.steal(rt, thief),
        None => None,
    }
}

/// A seat leaves a pass.
fn leave<N: Drop, T: Numbered<N>>(pass: &mut TaskPass<N, T>, seat: &mut Seat<N, T>)
    requires { MayExchangeAll true (seats pass.old) seat.old }
    ensures exchanged { AreExchanged gets (seats pass.old) seat.old (seats pass.new) seat.new }
    ensures reserve { places pass.new ≡ places pass.old }
{
    part(&mut pass.first, seat);
    part_all(&mut pass.more, seat);
}

/// A seat of another pass is going to come to a pass.
fn meet<N: Drop, T: Numbered<N>>(pass: &mut TaskPass<N, T>, seat: &mut Seat<N, T>)
    requires { MayExchangeAll false (seats pass.old) seat.old }
    ensures exchanged { AreExchanged gives (seats pass.old) seat.old (seats pass.new) seat.new }
    ensures reserve { places pass.new ≡ places pass.old }
{
    unite(&mut pass.first, seat);
    unite_all(&mut pass.more, seat);
}

/// Several are.
fn meet_all<N: Drop, T: Numbered<N>>(pass: &mut TaskPass<N, T>, more: &mut Vec<Seat<N, T>>)
    requires { MayUniteAll (seats pass.old) more.old.items }
    ensures united { AreUnited (seats pass.old) more.old.items (seats pass.new) more.new.items }
    ensures reserve { places pass.new ≡ places pass.old }
{
    for k in 0..more.len() {
        meet(pass, &mut more[k]);
    }
}

/// They come to it.
fn take_in<N: Drop, T: Numbered<N>>(
    pass: &mut TaskPass<N, T>,
    first: Seat<N, T>,
    mut more: Vec<Seat<N, T>>,
)
    requires { length (seats pass.old) + suc (length more.items) ≤ places pass.old }
    ensures items { (pass.new.first ≡ pass.old.first) × (pass.new.more.items ≡ pass.old.more.items ++ first ∷ more.items) }
    ensures reserve { places pass.old ≤ places pass.new }
{
    match pass.more.push(first) {
        Ok(()) => {}
        Err(_) => unreachable!(),
    }
    match pass.more.append(&mut more) {
        Ok(()) => {}
        Err(_) => unreachable!(),
    }
}
