//! Laws of pipelined hardware, each the contract of a function without a body. For proofs of other crates they are lemmas
//! of the same names in `proofs/Lemmas.antt`.

ghost use Rattle.std.specs.Prelude.{◌≡◌, ◌≤◌, ◌<◌, ◌+◌, ◌*◌, nat_lt, ℕ, suc, true, List, [], ◌∷◌, length, false, Some, ◌==◌, if◌then◌else◌, option_to_list};
ghost use Rattle.xb_bits.specs.Word.{Word};
ghost use Rattle.net_core.specs.declared.event.Event.{Event};
ghost use Rattle.net_core.specs.Trace.{trace};
ghost use Rattle.base.specs.Lists.Prefix.{IsPrefix};
ghost use Rattle.net_core.specs.Cuts.{words_sent, count_received};
ghost use Rattle.block_stage.specs.Machine.Pipeline.{Pipeline, IsPipeline, ReceivesNowhere};
ghost use Rattle.block_stage.specs.Machine.Cycle.{Ports, Registers, brought, in_stage, moves, asserted_by, asserted_in, after_cycle, transfers_in};
ghost use Rattle.block_stage.specs.Machine.Since.{took, gave, at_reset, after_cycles};
ghost use Rattle.block_stage.specs.Machine.Steady.{IsStageMet, AreFed, SendsOnce};
ghost use Rattle.block_stage.specs.Machine.Next.{closed_ports, IsNextEvent, IsSpent};

/// Whatever stands at the ports in each cycle since reset: the words sent on a channel are a prefix of those that the
/// proc's trace sends there over the words received. The trace may be of as many activations as cycles, or more.
pub fn sent_words_are_a_prefix()
    ensures { (q : Pipeline) → IsPipeline q → (cycles : List Ports) (n chan : ℕ) → length cycles ≤ n →
        let since = after_cycles q (at_reset q) cycles in
        IsPrefix (since.sent chan) (words_sent q.proc.behavior.sites chan (trace q.proc.behavior n q.proc.opening since.received)) }
{}

/// And that trace receives exactly the words received, on each channel.
pub fn received_words_are_the_traces()
    ensures { (q : Pipeline) → IsPipeline q → (cycles : List Ports) (n chan : ℕ) → length cycles ≤ n →
        let since = after_cycles q (at_reset q) cycles in
        count_received q.proc.behavior.sites chan (trace q.proc.behavior n q.proc.opening since.received) ≡ length (since.received chan) }
{}

/// What stalls in a stage is the first that the stage asserts in the next cycle, with the same word.
pub fn what_stalls_stays_asserted()
    ensures { (q : Pipeline) → IsPipeline q → (cycles : List Ports) (ports next : Ports) (j : ℕ) (event : Event) → j < q.stages →
        let now = (after_cycles q (at_reset q) cycles).contents in
        (in_stage q now ports j).stall ≡ Some event →
        (others : List Event) × (asserted_by (in_stage q (after_cycle q now ports) next j) ≡ event ∷ others) }
{}

/// So a word that is valid on a channel and not taken is still valid in the next cycle.
pub fn untaken_words_stay_valid()
    ensures { (q : Pipeline) → IsPipeline q → (cycles : List Ports) (ports next : Ports) (chan : ℕ) (w : Word) →
        let now = (after_cycles q (at_reset q) cycles).contents in
        words_sent q.proc.behavior.sites chan (asserted_in q now ports) ≡ w ∷ [] →
        ports.room chan ≡ false →
        words_sent q.proc.behavior.sites chan (asserted_in q (after_cycle q now ports) next) ≡ w ∷ [] }
{}

/// On each end of a channel at most one site is asserted in a cycle.
pub fn one_site_asserts()
    ensures sends { (q : Pipeline) → IsPipeline q → (cycles : List Ports) (ports : Ports) (chan : ℕ) →
        length (words_sent q.proc.behavior.sites chan (asserted_in q (after_cycles q (at_reset q) cycles).contents ports)) ≤ 1 }
    ensures receives { (q : Pipeline) → IsPipeline q → (cycles : List Ports) (ports : Ports) (chan : ℕ) →
        count_received q.proc.behavior.sites chan (asserted_in q (after_cycles q (at_reset q) cycles).contents ports) ≤ 1 }
{}

/// A word goes through a port in a cycle where both sides are ready: a word that is valid on a channel is sent where
/// there is room, and where the pipeline is ready for a word, a valid one is received.
pub fn words_go_where_both_sides_are_ready()
    ensures sent { (q : Pipeline) → IsPipeline q → (cycles : List Ports) (ports : Ports) (chan : ℕ) →
        let now = (after_cycles q (at_reset q) cycles).contents in
        gave q.proc.behavior.sites chan (transfers_in q now ports)
        ≡ (if ports.room chan then words_sent q.proc.behavior.sites chan (asserted_in q now ports) else []) }
    ensures received { (q : Pipeline) → IsPipeline q → (cycles : List Ports) (ports : Ports) (chan : ℕ) →
        let now = (after_cycles q (at_reset q) cycles).contents in
        took q.proc.behavior.sites chan (transfers_in q now ports)
        ≡ (if count_received q.proc.behavior.sites chan (asserted_in q now ports) == 0 then [] else option_to_list (ports.valid_word chan)) }
{}

/// Nothing is received from a channel from which no site receives.
pub fn nothing_is_received_without_a_site()
    ensures { (q : Pipeline) → IsPipeline q → (cycles : List Ports) (chan : ℕ) → ReceivesNowhere q chan →
        (after_cycles q (at_reset q) cycles).received chan ≡ [] }
{}

/// An activation moves where the partners of all its stage's sites are there, a word for each that receives and room for
/// each that sends, and where the next stage is free or moves. Of the final stage it leaves so.
pub fn a_stage_moves_where_it_can()
    ensures { (q : Pipeline) → IsPipeline q → (now : Registers) (ports : Ports) (j : ℕ) → j < q.stages →
        now.full j ≡ true → IsStageMet q j ports →
        (suc j < q.stages → now.full (suc j) ≡ true → moves q now ports (suc j) ≡ true) →
        moves q now ports j ≡ true }
{}

/// One that moves stands in the next stage in the next cycle, and where one leaves the stage in which it gives the turn
/// back, the next may begin.
pub fn moved_activations_go_on()
    ensures stands { (q : Pipeline) (now : Registers) (ports : Ports) (j : ℕ) → moves q now ports j ≡ true → (after_cycle q now ports).full (suc j) ≡ true }
    ensures turn { (q : Pipeline) (now : Registers) (ports : Ports) → moves q now ports q.last ≡ true → (after_cycle q now ports).full 0 ≡ true }
{}

/// A pipeline in which no stage holds an activation asserts nothing.
pub fn nothing_is_asked_without_an_activation()
    ensures { (q : Pipeline) (now : Registers) (ports : Ports) → ((j : ℕ) → now.full j ≡ false) → asserted_in q now ports ≡ [] }
{}

/// A pipeline that in each cycle finds a word at each end at which it receives and room at each at which it sends: where each
/// activation sends one word on a channel, word `i` moves exactly in cycle `i * interval + s`. The interval is one more than
/// the stage at whose end an activation gives the turn back, and `s` is the stage of the sending site.
pub fn always_fed_words_move_in_their_cycle()
    ensures { (q : Pipeline) → IsPipeline q → (chan place : ℕ) → SendsOnce q chan place →
        (cycles : List Ports) → AreFed q cycles → (i : ℕ) →
        nat_lt i (length ((after_cycles q (at_reset q) cycles).sent chan)) ≡ nat_lt (i * suc q.last + q.stage place) (length cycles) }
{}

/// Nothing that went before keeps a pipeline from going on. Once it finds in each cycle a word at each end at which it receives
/// and room at each at which it sends, and each activation sends one word on a channel, `i + 1` words more have moved there by
/// the end of cycle `(i + 1) * interval + s` from then on.
pub fn words_move_once_fed()
    ensures { (q : Pipeline) → IsPipeline q → (chan place : ℕ) → SendsOnce q chan place →
        (past cycles : List Ports) → AreFed q cycles → (i : ℕ) →
        let since = after_cycles q (at_reset q) past in
        suc i * suc q.last + q.stage place < length cycles →
        length (since.sent chan) + i < length ((after_cycles q since cycles).sent chan) }
{}

/// An activation comes to its next event in time: where those in later stages have none left, whatever stands at the ports, the
/// event is asserted after as many cycles as there are stages from where the activation stands to that of the event's site.
pub fn the_next_event_is_asserted_in_time()
    ensures { (q : Pipeline) → IsPipeline q → (past cycles : List Ports) (ports : Ports) (j i : ℕ) (event : Event) → j < q.stages →
        let since = after_cycles q (at_reset q) past in
        let now = since.contents in
        now.full j ≡ true →
        IsNextEvent q.proc.behavior (brought now j).state (in_stage q now closed_ports j) i event →
        ((k : ℕ) → j < k → k < q.stages → now.full k ≡ true → IsSpent q.proc.behavior (brought now k).state (in_stage q now closed_ports k)) →
        j + length cycles ≡ q.stage i →
        (others : List Event) × (asserted_by (in_stage q (after_cycles q since cycles).contents ports (q.stage i)) ≡ event ∷ others) }
{}
