//! What a pipeline finds at a channel.

ghost use Rattle.std.specs.Prelude.{◌≡◌, ℕ, List};
ghost use Rattle.xb_bits.specs.Word.{Word};
ghost use Rattle.block_stage.specs.Fifo.Fifo.{next_word, has_room};
ghost use Rattle.block_build.specs.Rows as rows;

use net_core::Kind;
use xb_bits::Bits;

/// The word that is there to be received, by the channel's kind: at an input the one at the block's own port, at an inner
/// channel the one that its FIFO shows.
pub fn valid_word(kind: Kind, outside: Option<Bits>, shown: Option<Bits>) -> Option<Bits>
    ensures { (queue : List Word) → shown ≡ next_word queue → result ≡ rows.valid_word_by kind outside queue }
{
    match kind {
        Kind::Input => outside,
        Kind::Output => None,
        Kind::Inner => shown,
    }
}

/// Whether a word that is sent is taken: at an output where the block's own port is ready, at an inner channel where its
/// FIFO has room.
pub fn room(kind: Kind, outside: bool, free: bool) -> bool
    ensures { (depth : ℕ) (queue : List Word) → free ≡ has_room depth queue → result ≡ rows.room_by kind depth outside queue }
{
    match kind {
        Kind::Input => false,
        Kind::Output => outside,
        Kind::Inner => free,
    }
}
