//! The laws of blocks, each the contract of a function without a body. They speak of any rows of a simulation among which
//! one resets, from any contents of the registers on, as they come up with power.

ghost use Rattle.std.specs.Prelude.{◌≡◌, ◌≤◌, ◌+◌, ◌*◌, nat_lt, ℕ, suc, true, false, List, [], ◌++◌, length, get_or, slice_get, if◌then◌else◌, option_to_list, Some, None};
ghost use Rattle.base.specs.Lists.Prefix.{IsPrefix};
ghost use Rattle.xb_bits.specs.Word.{Word};
ghost use Rattle.net_core.specs.declared.net.Chan.{Chan};
ghost use Rattle.net_core.specs.declared.net.Kind.TheVariants.{Input, Output};
ghost use Rattle.net_core.specs.Cuts.{words_at, received_at, unbounded_cut};
ghost use Rattle.block_stage.specs.Machine.Pipeline.{Pipeline};
ghost use Rattle.block_stage.specs.Machine.Steady.{SendsOnce};
ghost use Rattle.block_build.specs.Fed.{IsOuter, AreRowsFed};
ghost use Rattle.block_build.specs.Block.{Block, IsBlock, run_of};
ghost use Rattle.block_build.specs.Rows.{State, InputRow, sender_of, HasReset, state_after, after_row, since_reset, is_ready, offers, moved_in, moved_out};

/// Whatever stands at a block's ports in each row since the last reset: take the words that its inputs received as all that
/// the outside ever sends, and let the network run on them with channels of any depth, each proc for as many activations as
/// there were rows, or more. Then each output has sent a prefix of its words there, and each input has received its
/// words there.
pub fn block_words_are_the_networks()
    ensures outputs { (block : Block) → IsBlock block → (power : State) (rows : List InputRow) → HasReset rows →
        (inputs : List (List Word)) (n : ℕ) → length (since_reset [] rows) ≤ n →
        let state = state_after block power rows in
        let run = run_of block inputs n in
        ((c : ℕ) (chan : Chan) → slice_get block.chans c ≡ Some chan → chan.kind ≡ Input → get_or inputs c [] ≡ moved_in block state c) →
        (c : ℕ) (chan : Chan) → slice_get block.chans c ≡ Some chan → chan.kind ≡ Output →
        IsPrefix (moved_out block state c) (words_at run (unbounded_cut run) c) }
    ensures inputs { (block : Block) → IsBlock block → (power : State) (rows : List InputRow) → HasReset rows →
        (inputs : List (List Word)) (n : ℕ) → length (since_reset [] rows) ≤ n →
        let state = state_after block power rows in
        let run = run_of block inputs n in
        ((c : ℕ) (chan : Chan) → slice_get block.chans c ≡ Some chan → chan.kind ≡ Input → get_or inputs c [] ≡ moved_in block state c) →
        (c : ℕ) (chan : Chan) → slice_get block.chans c ≡ Some chan → chan.kind ≡ Input →
        received_at run (unbounded_cut run) c ≡ length (moved_in block state c) }
{}

/// A word moves through a port of the block in a row without reset in which both sides are ready: one that is valid at an
/// output where the outside has room, and one that is there at an input where the block is ready. So what moved is what the
/// rows show.
pub fn words_move_where_both_sides_are_ready()
    ensures outputs { (block : Block) → IsBlock block → (power : State) (rows : List InputRow) → HasReset rows → (row : InputRow) → row.rst ≡ false →
        let state = state_after block power rows in
        (c : ℕ) (chan : Chan) → slice_get block.chans c ≡ Some chan → chan.kind ≡ Output →
        moved_out block (after_row block state row) c
        ≡ moved_out block state c ++ (if row.ports.room c then option_to_list (offers block state row c) else []) }
    ensures inputs { (block : Block) → IsBlock block → (power : State) (rows : List InputRow) → HasReset rows → (row : InputRow) → row.rst ≡ false →
        let state = state_after block power rows in
        (c : ℕ) (chan : Chan) → slice_get block.chans c ≡ Some chan → chan.kind ≡ Input →
        moved_in block (after_row block state row) c
        ≡ moved_in block state c ++ (if is_ready block state row c then option_to_list (row.ports.valid_word c) else []) }
{}

/// A word that is valid at an output and not taken is still valid, unchanged, in the next row, unless that resets.
pub fn offers_stand()
    ensures { (block : Block) → IsBlock block → (power : State) (rows : List InputRow) → HasReset rows →
        let state = state_after block power rows in
        (row next : InputRow) (c : ℕ) (chan : Chan) (w : Word) → slice_get block.chans c ≡ Some chan → chan.kind ≡ Output →
        offers block state row c ≡ Some w → row.ports.room c ≡ false → next.rst ≡ false →
        offers block (after_row block state row) next c ≡ Some w }
{}

/// In a row with reset the block is ready for nothing and has no valid word, whatever stands in its registers.
pub fn nothing_is_driven_in_reset()
    ensures inputs { (block : Block) (state : State) (row : InputRow) (c : ℕ) → row.rst ≡ true → is_ready block state row c ≡ false }
    ensures outputs { (block : Block) (state : State) (row : InputRow) (c : ℕ) → row.rst ≡ true → offers block state row c ≡ None }
{}

/// The words of a pipeline that has no inner channel, where in each row since the last reset every input has a valid word and every
/// output is ready: where each activation sends one word on a channel, word `i` moves exactly in row `i * interval + s` since the
/// reset. The interval is one more than the stage at whose end an activation gives the turn back, and `s` is the stage of the
/// sending site.
pub fn always_fed_words_move_in_their_row()
    ensures { (block : Block) → IsBlock block → (chan place : ℕ) (q : Pipeline) → slice_get block.pipelines (sender_of block chan) ≡ Some q →
        IsOuter block q → SendsOnce q chan place →
        (power : State) (rows : List InputRow) → HasReset rows → AreRowsFed block (since_reset [] rows) → (i : ℕ) →
        nat_lt i (length (moved_out block (state_after block power rows) chan)) ≡ nat_lt (i * suc q.last + q.stage place) (length (since_reset [] rows)) }
{}
