//! Laws of networks, each the contract of a function without a body. For proofs of other crates they are lemmas of the
//! same names in `proofs/Lemmas.antt`.

ghost use Rattle.std.specs.Prelude.{◌≡◌, ◌<◌, ◌≤◌, ◌^◌, ℕ, true, false, List, [], ◌∷◌, ◌++◌, length, slice_get, Some};
ghost use Rattle.xb_bits.specs.Word.{Word};
ghost use Rattle.xb_value.specs.declared.value.Value.{Value};
ghost use Rattle.net_core.specs.declared.event.Event.{Event};
ghost use Rattle.net_core.specs.declared.config.Config.{Config};
ghost use Rattle.net_core.specs.declared.outcome.Stall.{Stall};
ghost use Rattle.net_core.specs.Behavior.{Behavior, IsOpen, KeepsTypes, next_event};
ghost use Rattle.net_core.specs.Trace.{Histories, trace};
ghost use Rattle.net_core.specs.Cuts.{Proc, Run, Cut, IsWithin, empty_cut, sites_at, words_sent, count_received, words_at, room_at};
ghost use Rattle.base.specs.Lists.Prefix.{IsPrefix};
ghost use Rattle.net_core.specs.Cuts.{round, unbounded_round, final_cut, unbounded_cut};
ghost use Rattle.net_core.specs.Machine.{goes, opened, next_of, finds_word, position_after, after_steps};
ghost use Rattle.net_core.specs.Outcomes.{count_ends, stall_in, outcome_of};
ghost use Rattle.net_core.specs.declared.net.Net.{Net};
ghost use Rattle.net_core.specs.WellFormed.{IsNet, IsInputs, IsOutcome, AreBehaviorsOf, EachKeepsTypes, run_of};
ghost use Rattle.net_core.specs.Shows.{Shows};
ghost use Rattle.net_core.specs.Counted.{IsCounted};
ghost use Rattle.net_core.specs.Nexts.{EventFits, WaitsForAWord};

/// Longer histories give a longer trace, which has the shorter one as a prefix.
pub fn traces_grow()
    ensures { (b : Behavior) (n : ℕ) (state : Value) (words more : Histories) →
        ((c : ℕ) → IsPrefix (words c) (more c)) →
        IsPrefix (trace b n state words) (trace b n state more) }
{}

/// More activations give a longer trace, which has the shorter one as a prefix.
pub fn more_activations_go_on()
    ensures { (b : Behavior) (m n : ℕ) (state : Value) (words : Histories) → m ≤ n →
        IsPrefix (trace b m state words) (trace b n state words) }
{}

/// A trace, and each prefix of it, receives no more words than there are.
pub fn only_words_are_received()
    ensures { (proc : Proc) (n : ℕ) (words : Histories) (made : List Event) →
        IsPrefix made (trace proc.behavior n proc.opening words) →
        (c : ℕ) → count_received proc.behavior.sites c made ≤ length (words c) }
{}

/// What a proc does next, by where it stands after the events that it made, is the next event of its trace.
pub fn next_is_the_traces()
    ensures { (proc : Proc) (n : ℕ) (words : Histories) (made rest : List Event) (event : Event) →
        trace proc.behavior n proc.opening words ≡ made ++ event ∷ rest →
        event ≡ next_of proc.behavior (position_after proc.behavior.sites (opened proc) made words) }
{}

/// Where an activation is open and the next event finds its word, or needs none, the trace goes on by it.
pub fn traces_go_on_by_the_next()
    ensures { (proc : Proc) (n : ℕ) (words : Histories) (made : List Event) →
        IsPrefix made (trace proc.behavior n proc.opening words) →
        (position_after proc.behavior.sites (opened proc) made words).ends < n →
        let next = next_of proc.behavior (position_after proc.behavior.sites (opened proc) made words) in
        finds_word proc.behavior.sites words made next ≡ true →
        IsPrefix (made ++ next ∷ []) (trace proc.behavior n proc.opening words) }
{}

/// A trace that ends before its activations are made stands before a receive from a channel all of whose words it
/// received.
pub fn traces_stop_at_a_missing_word()
    ensures { (proc : Proc) (n : ℕ) (words : Histories) →
        let whole = trace proc.behavior n proc.opening words in
        (position_after proc.behavior.sites (opened proc) whole words).ends < n →
        WaitsForAWord proc words whole }
{}

/// A body's next event is at a site of that direction, what it sends has its channel's width, and the next state has
/// the type of the states.
pub fn next_keeps_types()
    ensures { (b : Behavior) → KeepsTypes b → (state : Value) (got : List Word) (done : ℕ) →
        IsOpen b state got done → EventFits b (next_event b state got done) }
{}

/// Whatever procs make steps, in whatever order, none comes further than in the final cut.
pub fn steps_stay_within()
    ensures { (run : Run) (steps : List ℕ) → IsWithin (after_steps run empty_cut steps) (final_cut run) }
{}

/// Steps after which no proc can go have come to the final cut, whatever their order.
pub fn steps_end_at_the_final_cut()
    ensures { (run : Run) (steps : List ℕ) →
        ((p : ℕ) → p < length run.procs → goes run (after_steps run empty_cut steps) p ≡ false) →
        after_steps run empty_cut steps ≡ final_cut run }
{}

/// A configuration in which no proc can go shows the final cut.
pub fn stuck_shows_the_final_cut()
    ensures { (run : Run) (cut : Cut) (config : Config) → Shows run cut config →
        ((p : ℕ) → p < length run.procs → goes run cut p ≡ false) →
        Shows run (final_cut run) config }
{}

/// A cut of which no order of the events is known stays within the final cut where only this is so: each proc has made
/// a prefix of its trace over the words of the final cut, has sent no more than there on inner channels, has received
/// only what was sent, and has sent only what had room.
pub fn counted_cuts_stay_within()
    ensures { (run : Run) (cut : Cut) → IsCounted run cut → IsWithin cut (final_cut run) }
{}

/// And where no proc can go it is the final cut.
pub fn counted_cuts_end_at_the_final_cut()
    ensures { (run : Run) (cut : Cut) → IsCounted run cut →
        ((p : ℕ) → p < length run.procs → goes run cut p ≡ false) →
        cut ≡ final_cut run }
{}

/// A round no longer changes the final cut.
pub fn rounds_settle()
    ensures { (run : Run) → round run (final_cut run) ≡ final_cut run }
{}

/// Nor the unbounded one.
pub fn unbounded_rounds_settle()
    ensures { (run : Run) → unbounded_round run (unbounded_cut run) ≡ unbounded_cut run }
{}

/// In the final cut no proc can go.
pub fn no_proc_can_go_at_the_end()
    ensures { (run : Run) (p : ℕ) → goes run (final_cut run) p ≡ false }
{}

/// What was received in the final cut was sent.
pub fn only_sent_words_are_received()
    ensures { (run : Run) (p c : ℕ) →
        count_received (sites_at run p) c (final_cut run p) ≤ length (words_at run (final_cut run) c) }
{}

/// What was sent in the final cut had room.
pub fn each_sent_word_had_room()
    ensures { (run : Run) (p c j : ℕ) → j < length (words_sent (sites_at run p) c (final_cut run p)) →
        room_at run (final_cut run) c j ≡ true }
{}

/// A proc that isn't done in the final cut waits for something.
pub fn who_is_not_done_waits()
    ensures { (run : Run) (p : ℕ) (proc : Proc) → slice_get run.procs p ≡ Some proc →
        count_ends (final_cut run p) < run.activations →
        (stall : Stall) × (stall_in run (final_cut run) p proc ≡ Some stall) }
{}

/// The outcome of the final cut has words of its channels' widths and states of its procs' types.
pub fn outcomes_fit()
    ensures { (net : Net) (behaviors : List Behavior) (inputs : List (List Word)) (n : ℕ) (depths : List ℕ) →
        IsNet net → AreBehaviorsOf net behaviors → EachKeepsTypes behaviors → IsInputs net inputs → n < 2 ^ 32 →
        let run = run_of net behaviors inputs n depths in
        IsOutcome net (outcome_of run (final_cut run)) }
{}
