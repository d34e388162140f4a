//! An activation, step by step.

ghost use Rattle.std.specs.Prelude.{ℕ, ◌≡◌, ◌≤◌, ◌<◌, ◌+◌, ◌∷◌, [], Some, None, IfOk, IsTrue, OnOk, unwrap_or};
ghost use Rattle.net_core.specs.Keeps.{IsNothing};
ghost use Rattle.net_core.specs.declared.event.Event.TheVariants.{End};
ghost use Rattle.dslx_core.specs.CoreValues.{core_value};
ghost use Rattle.dslx_core.specs.Designs.{Behind, condition_at, do_step, functions_from, no_function, receive_if, receive_on, send_if, token, with_token};
ghost use Rattle.dslx_core.specs.Lowering.Steps.{fits_word};
ghost use Rattle.dslx_interp.specs.Network.Bodies.{receives_word};
ghost use Rattle.dslx_interp.specs.Network.Inner.Walking.{SendsAWord, Goes, GoesLater, BindsOrEnds, IsSentAfter, IsSentAt, IsWordAfter, IsWordFor, HasWordIf, KeepsIf, StandsStillIf, WaitsIf, bound_from, bound_then, event_here, give_then, is_at_site, receive_off, send_off};

use crate::eval::value_of;
use crate::network::word::{word_at, word_value};
use crate::operate::{condition, take_pair, take_whole};
use dslx_core::{CoreExpr, Function, Receive, Send, Shape, Step};
use net_core::{Activation, Event};
use std::alloc::{AllocError, Global};
use xb_bits::Bits;
use xb_value::{Seq, Value, flat};

/// Where an activation stands: what is bound, how many words were received, and how many sites are past.
#[derive(Drop)]
pub(crate) struct Walk {
    pub(crate) bound: Vec<Value>,
    pub(crate) received: usize,
    pub(crate) site: u32,
}

impl Walk {
    /// Where an activation stood; where nothing is kept, before the first step, with the state bound. Nothing is kept of it then,
    /// until the walk is kept again.
    pub(crate) fn resume(
        alloc: Global,
        kept: &mut Activation,
        state: &Value,
    ) -> Result<Walk, AllocError>
        ensures bound { IfOk result (λ walk. walk.bound.items ≡ bound_from kept.old.values.items state.now) }
        ensures received { IfOk result (λ walk. walk.received ≡ kept.old.words) }
        ensures site { IfOk result (λ walk. walk.site ≡ kept.old.sites) }
        ensures nothing { IsNothing kept.new }
    {
        let kept_values = std::mem::replace(&mut kept.values, Vec::new(alloc));
        let received = kept.words;
        let site = kept.sites;
        kept.clear();
        let bound = or_state(alloc, kept_values, state)?;
        Ok(Walk {
            bound,
            received,
            site,
        })
    }

    /// Keeps the walk, which stands before the step of this index, and the word that is known of it.
    pub(crate) fn keep(self, kept: &mut Activation, steps: usize, sent: Option<Bits>)
        requires { IsNothing kept.old }
        ensures { KeepsIf self.bound.items self steps sent kept.new }
    {
        if self.bound.is_empty() {
            return;
        }
        kept.values = self.bound;
        kept.steps = steps;
        kept.sites = self.site;
        kept.words = self.received;
        kept.sent = sent;
    }

    /// Goes on by a step, and gives the event that comes first there: that of the first site behind the first `done` ones that is on,
    /// or the end where a value is missing. The word of a send that waits is known from then on, until the step is past.
    pub(crate) fn step(
        &mut self,
        alloc: Global,
        functions: &[Function],
        got: &[Bits],
        done: u32,
        sent: &mut Option<Bits>,
        step: &Step,
    ) -> Result<Option<Event>, AllocError>
        requires words { IsTrue (receives_word step.now) }
        requires sent { IsSentAt (functions_from 0 functions.now no_function) step.now self.old.bound.items sent.old }
        requires fits { (rest : Behind) × SendsAWord (event_here (do_step (functions_from 0 functions.now no_function) step.now rest) got.now done self.old) }
        ensures goes { IfOk result (λ ended. GoesLater (do_step (functions_from 0 functions.now no_function) step.now) got.now done self.old self.new ended) }
        ensures waits { IfOk result (WaitsIf self.old self.new) }
        ensures sent { IfOk result (λ ended. IsSentAfter (functions_from 0 functions.now no_function) step.now self.old.bound.items sent.new ended) }
    {
        match step {
            Step::Bind(expr, shape) => self.bind(alloc, functions, got, done, expr, shape),
            Step::Receive(receive) => self.receive(alloc, functions, got, done, receive),
            Step::Send(send) => self.send(alloc, functions, got, done, sent, send),
        }
    }

    /// The end of the activation, with the value of the next state. Nothing is kept of it but the memory of its values.
    pub(crate) fn end(
        self,
        alloc: Global,
        functions: &[Function],
        next: &CoreExpr,
        kept: &mut Activation,
    ) -> Result<Event, AllocError>
        requires { IsNothing kept.old }
        ensures event { IfOk result (λ event. event ≡ End (unwrap_or (core_value next.now (functions_from 0 functions.now no_function) self.bound.items) token)) }
        ensures nothing { IsNothing kept.new }
    {
        match value_of(alloc, functions, next, self.bound)? {
            Some(found) => {
                kept.values = found.bound;
                kept.values.clear();
                Ok(Event::End(found.value))
            }
            None => Ok(ended(alloc)),
        }
    }

    /// The value of an expression. Where it has one, what is bound stays.
    fn value(
        &mut self,
        alloc: Global,
        functions: &[Function],
        expr: &CoreExpr,
    ) -> Result<Option<Value>, AllocError>
        ensures value { IfOk result (λ v. v ≡ core_value expr.now (functions_from 0 functions.now no_function) self.old.bound.items) }
        ensures stays { IfOk result (λ v. StandsStillIf v self.old self.new) }
    {
        let bound = std::mem::replace(&mut self.bound, Vec::new(alloc));
        match value_of(alloc, functions, expr, bound)? {
            Some(found) => {
                self.bound = found.bound;
                Ok(Some(found.value))
            }
            None => Ok(None),
        }
    }

    /// Whether a condition holds, unless it has no value. Where it does or doesn't, what is bound stays.
    fn condition(
        &mut self,
        alloc: Global,
        functions: &[Function],
        expr: &CoreExpr,
    ) -> Result<Option<bool>, AllocError>
        ensures holds { IfOk result (λ holds. holds ≡ condition_at (functions_from 0 functions.now no_function) expr.now self.old.bound.items) }
        ensures stays { IfOk result (λ holds. StandsStillIf holds self.old self.new) }
    {
        let value = self.value(alloc, functions, expr)?;
        Ok(condition(&value))
    }

    /// Takes a value apart. The activation ends where it doesn't fit.
    fn take(
        &mut self,
        alloc: Global,
        shape: &Shape,
        value: Value,
    ) -> Result<Option<Event>, AllocError>
        ensures binds { IfOk result (λ ended. BindsOrEnds shape.now value self.old self.new ended) }
        ensures waits { IfOk result (WaitsIf self.old self.new) }
    {
        if take_whole(alloc, shape, value, &mut self.bound)? {
            Ok(None)
        } else {
            Ok(Some(ended(alloc)))
        }
    }

    /// Takes a token and a value apart. The activation ends where they don't fit.
    fn take_received(
        &mut self,
        alloc: Global,
        shape: &Shape,
        value: Value,
    ) -> Result<Option<Event>, AllocError>
        ensures binds { IfOk result (λ ended. BindsOrEnds shape.now (with_token value) self.old self.new ended) }
        ensures waits { IfOk result (WaitsIf self.old self.new) }
    {
        if take_pair(alloc, shape, token(alloc), value, &mut self.bound)? {
            Ok(None)
        } else {
            Ok(Some(ended(alloc)))
        }
    }

    /// Binds the value of an expression.
    fn bind(
        &mut self,
        alloc: Global,
        functions: &[Function],
        _got: &[Bits],
        _done: u32,
        expr: &CoreExpr,
        shape: &Shape,
    ) -> Result<Option<Event>, AllocError>
        ensures goes { IfOk result (λ ended. GoesLater (bound_then (functions_from 0 functions.now no_function) expr.now shape.now) _got.now _done self.old self.new ended) }
        ensures waits { IfOk result (WaitsIf self.old self.new) }
    {
        let Some(value) = self.value(alloc, functions, expr)? else {
            return Ok(Some(ended(alloc)));
        };
        self.take(alloc, shape, value)
    }

    /// Receives a word, or binds what stands for it.
    fn receive(
        &mut self,
        alloc: Global,
        functions: &[Function],
        got: &[Bits],
        done: u32,
        receive: &Receive,
    ) -> Result<Option<Event>, AllocError>
        requires { IsTrue (fits_word receive.now.word) }
        ensures goes { IfOk result (λ ended. GoesLater (receive_if (functions_from 0 functions.now no_function) receive.now.word receive.now.condition receive.now.shape) got.now done self.old self.new ended) }
        ensures waits { IfOk result (WaitsIf self.old self.new) }
    {
        let Some((on, otherwise)) = &receive.condition else {
            return self.receive_word(alloc, got, done, receive);
        };
        match self.condition(alloc, functions, on)? {
            None => Ok(Some(ended(alloc))),
            Some(true) => self.receive_word(alloc, got, done, receive),
            Some(false) => self.receive_nothing(
                alloc,
                functions,
                got,
                done,
                otherwise,
                &receive.shape,
            ),
        }
    }

    /// Receives the next word, unless this is the site that is asked for.
    fn receive_word(
        &mut self,
        alloc: Global,
        got: &[Bits],
        done: u32,
        receive: &Receive,
    ) -> Result<Option<Event>, AllocError>
        requires { IsTrue (fits_word receive.now.word) }
        ensures goes { IfOk result (λ ended. GoesLater (receive_on receive.now.word receive.now.shape) got.now done self.old self.new ended) }
        ensures waits { IfOk result (WaitsIf self.old self.new) }
    {
        if self.site >= done {
            return Ok(Some(Event::Recv(self.site)));
        }
        let Some(word) = word_at(got, self.received) else {
            return Ok(Some(ended(alloc)));
        };
        let value = word_value(alloc, &receive.word, word)?;
        self.received += 1;
        self.site += 1;
        self.take_received(alloc, &receive.shape, value)
    }

    /// Binds the value that stands for a word where a receive is off.
    fn receive_nothing(
        &mut self,
        alloc: Global,
        functions: &[Function],
        _got: &[Bits],
        _done: u32,
        otherwise: &CoreExpr,
        shape: &Shape,
    ) -> Result<Option<Event>, AllocError>
        ensures goes { IfOk result (λ ended. GoesLater (receive_off (functions_from 0 functions.now no_function) otherwise.now shape.now) _got.now _done self.old self.new ended) }
        ensures waits { IfOk result (WaitsIf self.old self.new) }
    {
        let Some(value) = self.value(alloc, functions, otherwise)? else {
            return Ok(Some(ended(alloc)));
        };
        self.pass()?;
        self.take_received(alloc, shape, value)
    }

    /// Sends a word, or goes past the site.
    fn send(
        &mut self,
        alloc: Global,
        functions: &[Function],
        got: &[Bits],
        done: u32,
        sent: &mut Option<Bits>,
        send: &Send,
    ) -> Result<Option<Event>, AllocError>
        requires fits { (rest : Behind) × SendsAWord (event_here (send_if (functions_from 0 functions.now no_function) send.now.word send.now.condition send.now.shape rest) got.now done self.old) }
        requires sent { IsWordFor (core_value send.now.word (functions_from 0 functions.now no_function) self.old.bound.items) sent.old }
        ensures goes { IfOk result (λ ended. GoesLater (send_if (functions_from 0 functions.now no_function) send.now.word send.now.condition send.now.shape) got.now done self.old self.new ended) }
        ensures waits { IfOk result (WaitsIf self.old self.new) }
        ensures sent { IfOk result (λ ended. IsWordAfter (core_value send.now.word (functions_from 0 functions.now no_function) self.old.bound.items) sent.new ended) }
    {
        let Some(on) = &send.condition else {
            return self.send_word(alloc, functions, got, done, sent, send);
        };
        match self.condition(alloc, functions, on)? {
            None => Ok(Some(ended(alloc))),
            Some(true) => self.send_word(alloc, functions, got, done, sent, send),
            Some(false) => {
                *sent = None;
                self.send_nothing(alloc, got, done, &send.shape)
            }
        }
    }

    /// Sends the word of a value, unless the site is past.
    fn send_word(
        &mut self,
        alloc: Global,
        functions: &[Function],
        got: &[Bits],
        done: u32,
        sent: &mut Option<Bits>,
        send: &Send,
    ) -> Result<Option<Event>, AllocError>
        requires fits { (rest : Behind) × SendsAWord (event_here (give_then (functions_from 0 functions.now no_function) send.now.word send.now.shape rest) got.now done self.old) }
        requires sent { IsWordFor (core_value send.now.word (functions_from 0 functions.now no_function) self.old.bound.items) sent.old }
        ensures goes { IfOk result (λ ended. GoesLater (give_then (functions_from 0 functions.now no_function) send.now.word send.now.shape) got.now done self.old self.new ended) }
        ensures waits { IfOk result (WaitsIf self.old self.new) }
        ensures sent { IfOk result (λ ended. IsWordAfter (core_value send.now.word (functions_from 0 functions.now no_function) self.old.bound.items) sent.new ended) }
    {
        if self.site >= done {
            let event = self.give(alloc, functions, got, done, sent, send)?;
            return Ok(Some(event));
        }
        let there = self.has_word(alloc, functions, &send.word, *sent)?;
        if !there {
            return Ok(Some(ended(alloc)));
        }
        *sent = None;
        self.site += 1;
        self.take(alloc, &send.shape, token(alloc))
    }

    /// The event of a send that is asked for. Its word is worked out unless it is known.
    fn give(
        &mut self,
        alloc: Global,
        functions: &[Function],
        got: &[Bits],
        done: u32,
        sent: &mut Option<Bits>,
        send: &Send,
    ) -> Result<Event, AllocError>
        requires asked { done ≤ self.old.site }
        requires fits { (rest : Behind) × SendsAWord (event_here (give_then (functions_from 0 functions.now no_function) send.now.word send.now.shape rest) got.now done self.old) }
        requires sent { IsWordFor (core_value send.now.word (functions_from 0 functions.now no_function) self.old.bound.items) sent.old }
        ensures goes { IfOk result (λ event. Goes (give_then (functions_from 0 functions.now no_function) send.now.word send.now.shape) got.now done self.old self.new (Some event)) }
        ensures waits { IfOk result (λ event. WaitsIf self.old self.new (Some event)) }
        ensures sent { IfOk result (λ event. IsWordFor (core_value send.now.word (functions_from 0 functions.now no_function) self.old.bound.items) sent.new) }
    {
        if let Some(word) = *sent {
            return Ok(Event::Send(self.site, word));
        }
        let Some(value) = self.value(alloc, functions, &send.word)? else {
            return Ok(ended(alloc));
        };
        let word = flat(&value);
        *sent = Some(word);
        Ok(Event::Send(self.site, word))
    }

    /// Whether an expression has a value, as it has where its word is known. Where it has, what is bound stays.
    fn has_word(
        &mut self,
        alloc: Global,
        functions: &[Function],
        expr: &CoreExpr,
        sent: Option<Bits>,
    ) -> Result<bool, AllocError>
        requires { IsWordFor (core_value expr.now (functions_from 0 functions.now no_function) self.old.bound.items) sent }
        ensures { IfOk result (λ there. HasWordIf (core_value expr.now (functions_from 0 functions.now no_function) self.old.bound.items) self.old self.new there) }
    {
        if sent.is_some() {
            return Ok(true);
        }
        match self.value(alloc, functions, expr)? {
            Some(_) => Ok(true),
            None => Ok(false),
        }
    }

    /// Goes past a send that is off.
    fn send_nothing(
        &mut self,
        alloc: Global,
        _got: &[Bits],
        _done: u32,
        shape: &Shape,
    ) -> Result<Option<Event>, AllocError>
        ensures goes { IfOk result (λ ended. GoesLater (send_off shape.now) _got.now _done self.old self.new ended) }
        ensures waits { IfOk result (WaitsIf self.old self.new) }
    {
        self.pass()?;
        self.take(alloc, shape, token(alloc))
    }

    /// Goes past a site. Past 2^32 - 1 sites, of which no network has one, it gives up as for want of memory.
    fn pass(&mut self) -> Result<(), AllocError>
        ensures bound { self.new.bound ≡ self.old.bound }
        ensures received { self.new.received ≡ self.old.received }
        ensures site { OnOk result (self.new.site ≡ self.old.site + 1) }
    {
        let Some(site) = self.site.checked_add(1) else {
            return Err(AllocError);
        };
        self.site = site;
        Ok(())
    }
}

/// The values that are bound, or the state where there are none.
fn or_state(alloc: Global, values: Vec<Value>, state: &Value) -> Result<Vec<Value>, AllocError>
    ensures { IfOk result (λ bound. bound.items ≡ bound_from values.items state.now) }
{
    let mut bound = values;
    if bound.is_empty() {
        bound.push(state.copy(alloc)?)?;
    }
    Ok(bound)
}

/// Whether an event is that of a site.
pub(crate) fn is_at_site(event: &Event) -> bool
    ensures { result ≡ is_at_site event.now }
{
    match event {
        Event::Recv(_) | Event::Send(..) => true,
        Event::End(_) => false,
    }
}

fn token(alloc: Global) -> Value
    ensures { result ≡ token }
{
    Value::Tuple(Seq::from_vec(Vec::new(alloc)))
}

/// The end of an activation in which a value is missing.
fn ended(alloc: Global) -> Event
    ensures { result ≡ End token }
{
    Event::End(token(alloc))
}
