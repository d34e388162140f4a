//! Laws of FIFOs, each the contract of a function without a body. For proofs of other crates they are lemmas of the same
//! names in `proofs/Lemmas.antt`.

ghost use Rattle.std.specs.Prelude.{◌≡◌, ◌≤◌, ◌<◌, ℕ, Bool, List, length, is_some, Option, Some};
ghost use Rattle.base.specs.Lists.Prefix.{IsPrefix};
ghost use Rattle.xb_bits.specs.Word.{Word};
ghost use Rattle.block_stage.specs.Fifo.Fifo.{Cycle, SinceReset, empty, one_more, next_word, after_cycles};
ghost use Rattle.block_stage.specs.Fifo.Fifo as fifo;
ghost use Rattle.block_stage.specs.Fifo.Row.{Row, RowHolds, row_after};
ghost use Rattle.block_stage.specs.Fifo.Row as row;
ghost use Rattle.block_stage.specs.Fifo.Ring.{Ring, RingHolds, ring_after};
ghost use Rattle.block_stage.specs.Fifo.Ring as ring;

/// What a FIFO gave is a prefix of what was put in.
pub fn given_words_are_a_prefix()
    ensures { (depth : ℕ) (cycles : List (Cycle Word)) →
        let since = after_cycles depth empty cycles in
        IsPrefix since.given since.put }
{}

/// What it gave by the end of a cycle had been put in before that cycle: nothing passes through within a cycle.
pub fn given_words_were_put_before()
    ensures { (depth : ℕ) (cycles : List (Cycle Word)) (ready : Bool) (valid_data : Option Word) →
        let since = after_cycles depth empty cycles in
        IsPrefix (one_more depth since ready valid_data).given since.put }
{}

/// It never holds more words than its depth.
pub fn words_fit_the_depth()
    ensures { (depth : ℕ) (cycles : List (Cycle Word)) → length (after_cycles depth empty cycles).words ≤ depth }
{}

/// A row of registers that shifts does what the FIFO does.
pub fn rows_are_fifos()
    ensures word { (registers : Row Word) (words : List Word) → RowHolds Word registers words →
        row.has_word registers ≡ is_some (next_word words) }
    ensures first { (registers : Row Word) (words : List Word) (w : Word) → RowHolds Word registers words →
        next_word words ≡ Some w → row.first_word registers ≡ w }
    ensures room { (depth : ℕ) (registers : Row Word) (words : List Word) → RowHolds Word registers words → length words ≤ depth →
        row.has_room depth registers ≡ fifo.has_room depth words }
    ensures after { (depth : ℕ) (registers : Row Word) (words : List Word) (ready : Bool) (valid_data : Option Word) →
        RowHolds Word registers words → length words ≤ depth →
        RowHolds Word (row_after depth registers ready valid_data) (fifo.after_cycle depth words ready valid_data) }
{}

/// And so does a ring of registers with two pointers, at any depth but 0.
pub fn rings_are_fifos()
    ensures word { (depth : ℕ) (registers : Ring Word) (words : List Word) → RingHolds Word depth registers words → 0 < depth → length words ≤ depth →
        ring.has_word registers ≡ is_some (next_word words) }
    ensures first { (depth : ℕ) (registers : Ring Word) (words : List Word) (w : Word) → RingHolds Word depth registers words →
        next_word words ≡ Some w → ring.first_word depth registers ≡ w }
    ensures room { (depth : ℕ) (registers : Ring Word) (words : List Word) → RingHolds Word depth registers words → 0 < depth → length words ≤ depth →
        ring.has_room depth registers ≡ fifo.has_room depth words }
    ensures after { (depth : ℕ) (registers : Ring Word) (words : List Word) (ready : Bool) (valid_data : Option Word) →
        RingHolds Word depth registers words → 0 < depth → length words ≤ depth →
        RingHolds Word depth (ring_after depth registers ready valid_data) (fifo.after_cycle depth words ready valid_data) }
{}
