use std::sync::atomic::{AtomicBool, AtomicU32, Ordering};
use std::thread;

/// How often a worker without a task looks whether one has moved, in a turn.
const LOOKS: u32 = 1024;

/// How often in a row it finds no worker at a task until it leaves the round.
const PATIENCE: u32 = 256;

/// What the workers of a round tell one another. It decides when a worker tries its parked tasks again and when it leaves the
/// round; nothing that holds of a task rests on it.
#[derive(Drop)]
pub(crate) struct Pulse {
    /// How many workers are at a task.
    busy: AtomicU32,
    /// In how many turns a task has moved.
    moves: AtomicU32,
    /// A worker has used up its turns, or memory was wanting.
    over: AtomicBool,
}

impl Pulse {
    pub(crate) fn new() -> Pulse {
        Pulse {
            busy: AtomicU32::new(0),
            moves: AtomicU32::new(0),
            over: AtomicBool::new(false),
        }
    }

    /// A worker is at a task.
    pub(crate) fn begin(&self) {
        self.busy.fetch_add(1, Ordering::SeqCst);
    }

    /// It isn't any more; the task has moved, or hasn't.
    pub(crate) fn end(&self, moved: bool) {
        if moved {
            self.moves.fetch_add(1, Ordering::SeqCst);
        }
        self.busy.fetch_sub(1, Ordering::SeqCst);
    }

    /// In how many turns a task has moved so far.
    pub(crate) fn moves(&self) -> u32 {
        self.moves.load(Ordering::SeqCst)
    }

    /// All workers are to leave the round.
    pub(crate) fn stop(&self) {
        self.over.store(true, Ordering::SeqCst);
    }

    pub(crate) fn is_over(&self) -> bool {
        self.over.load(Ordering::SeqCst)
    }

    /// Waits a while for more moves than these, and says whether it is worth a further turn.
    pub(crate) fn wait(&self, moves: u32) -> bool {
        let mut quiet = 0u32;
        for _ in 0..LOOKS {
            if self.moves() != moves {
                return true;
            }
            quiet = if self.is_quiet() {
                quiet.saturating_add(1)
            } else {
                0
            };
            if self.is_over() || quiet > PATIENCE {
                return false;
            }
            thread::yield_now();
        }
        true
    }

    /// No worker is at a task.
    fn is_quiet(&self) -> bool {
        self.busy.load(Ordering::SeqCst) == 0
    }
}
