//! Laws of streams, each the contract of a function without a body.

ghost use Rattle.std.specs.Prelude.{◌≡◌, ◌<◌, ◌+◌, ◌⊎◌, ℕ, suc, true, false, List, [], ◌∷◌, ◌++◌, length, get_or, slice_get, Some};
ghost use Rattle.base.specs.Lists.Prefix.{IsPrefix};
ghost use Rattle.xb_bits.specs.Word.{Word};
ghost use Rattle.xb_value.specs.declared.value.Value.{Value};
ghost use Rattle.net_core.specs.declared.net.Site.{Site};
ghost use Rattle.net_core.specs.declared.event.Event.{Event};
ghost use Rattle.net_core.specs.declared.event.Event.TheVariants as event;
ghost use Rattle.net_core.specs.Cuts.{Proc, Run, Cut, words_sent, count_received, final_cut};
ghost use Rattle.net_core.specs.Machine.{goes};
ghost use Rattle.net_core.specs.WellFormed.{IsRun};
ghost use Rattle.net_core.specs.declared.net.Chan.{Chan};
ghost use Rattle.net_core.specs.declared.net.Kind.TheVariants.{Output, Inner};
ghost use Rattle.net_core.specs.Cuts.{words_at};
ghost use Rattle.net_core.specs.Machine.{Position, opened, next_of};
ghost use Rattle.xb_value.specs.Typing.{IsOfType};
ghost use Rattle.chan_queue.specs.Streams.Streams.{stream_in, StandsBefore, IsSiteOn, AreStopped};
ghost use Rattle.chan_queue.specs.Streams.Moves.{IsTyped, IsStanding, GoesOn, sent_first, received_first};

/// The next send of a proc that has come no further than in the final cut carries the next word of its channel's
/// stream, and leaves the proc within the final cut; or all words were sent, and there will never be room for one more.
pub fn sends_are_of_the_stream()
    ensures { (run : Run) (p : ℕ) (proc : Proc) (made : List Event) (i : ℕ) (word : Word) (site : Site) →
        IsRun run → StandsBefore run p proc made (event.Send i word) → IsSiteOn run proc i site true →
        let sent = length (words_sent proc.behavior.sites site.chan made) in
        let stream = stream_in run site.chan in
        ((slice_get stream.words sent ≡ Some word) × IsPrefix (made ++ event.Send i word ∷ []) (final_cut run p))
        ⊎ ((sent ≡ length stream.words) × (sent ≡ stream.received + get_or run.depths site.chan 0)) }
{}

/// Its next receive is one of those of the final cut, and leaves it within the final cut; or all words that are ever
/// sent were received.
pub fn receives_are_of_the_stream()
    ensures { (run : Run) (p : ℕ) (proc : Proc) (made : List Event) (i : ℕ) (site : Site) →
        IsRun run → StandsBefore run p proc made (event.Recv i) → IsSiteOn run proc i site false →
        let received = count_received proc.behavior.sites site.chan made in
        let stream = stream_in run site.chan in
        ((received < stream.received) × IsPrefix (made ++ event.Recv i ∷ []) (final_cut run p))
        ⊎ ((received ≡ stream.received) × (stream.received ≡ length stream.words)) }
{}

/// Where its activation ends next, it stays within the final cut.
pub fn ends_stay_within()
    ensures { (run : Run) (p : ℕ) (proc : Proc) (made : List Event) (state : Value) →
        StandsBefore run p proc made (event.End state) →
        IsPrefix (made ++ event.End state ∷ []) (final_cut run p) }
{}

/// Procs that have stopped within the final cut, and whose channels' counts were compared, have come to the final cut
/// where none of them can go.
pub fn stopped_procs_have_come_to_the_final_cut()
    ensures { (run : Run) (cut : Cut) → IsRun run → AreStopped run cut →
        ((p : ℕ) → p < length run.procs → goes run cut p ≡ false) →
        cut ≡ final_cut run }
{}

/// Before its first event a proc stands in its opening state.
pub fn procs_begin_standing()
    ensures { (run : Run) (p : ℕ) (proc : Proc) → slice_get run.procs p ≡ Some proc →
        IsOfType proc.behavior.state proc.opening →
        IsStanding run p proc 0 (opened proc) }
{}

/// Where its activation ends next, it goes on to the next one.
pub fn ends_go_on()
    ensures { (run : Run) → IsRun run → (p : ℕ) (proc : Proc) (k : ℕ) (at : Position) → IsStanding run p proc k at → at.ends < run.activations →
        (state : Value) → next_of proc.behavior at ≡ event.End state →
        GoesOn run p proc k (event.End state) (record { state = state; got = []; done = 0; ends = suc at.ends }) }
{}

/// Where it sends next, on an output or the word that comes next in its channel's stream, it goes on behind that.
pub fn sends_go_on()
    ensures { (run : Run) → IsRun run → (p : ℕ) (proc : Proc) (k : ℕ) (at : Position) → IsStanding run p proc k at → at.ends < run.activations →
        (i : ℕ) (word : Word) (site : Site) (chan : Chan) → next_of proc.behavior at ≡ event.Send i word →
        slice_get proc.behavior.sites i ≡ Some site → site.sends ≡ true → slice_get run.chans site.chan ≡ Some chan →
        (chan.kind ≡ Output) ⊎ ((chan.kind ≡ Inner) × (slice_get (words_at run (final_cut run) site.chan) (length (sent_first run p proc k site.chan)) ≡ Some word)) →
        GoesOn run p proc k (event.Send i word) (record { state = at.state; got = at.got; done = suc i; ends = at.ends }) }
{}

/// Where it receives next, and is given the word that comes next in its channel's stream, it goes on behind that.
pub fn receives_go_on()
    ensures { (run : Run) → IsTyped run → (p : ℕ) (proc : Proc) (k : ℕ) (at : Position) → IsStanding run p proc k at → at.ends < run.activations →
        (i : ℕ) (word : Word) (site : Site) → next_of proc.behavior at ≡ event.Recv i → slice_get proc.behavior.sites i ≡ Some site →
        slice_get (words_at run (final_cut run) site.chan) (received_first run p proc k site.chan) ≡ Some word →
        GoesOn run p proc k (event.Recv i) (record { state = at.state; got = at.got ++ word ∷ []; done = suc i; ends = at.ends }) }
{}
