use std::sync::atomic::{AtomicBool, Ordering};
use std::thread;
use xb_io::Gate;

/// How often a thread looks whether the other one has come.
pub(crate) const LOOKS: u32 = 10_000_000;

/// A gate that holds the first task of each of two workers until the other one has entered.
#[derive(Drop)]
pub(crate) struct Meeting {
    first: AtomicBool,
    second: AtomicBool,
    missed: AtomicBool,
}

impl Meeting {
    pub(crate) fn new() -> Meeting {
        Meeting {
            first: AtomicBool::new(false),
            second: AtomicBool::new(false),
            missed: AtomicBool::new(false),
        }
    }

    /// Both workers have entered, and each was held only until the other one had.
    pub(crate) fn has_met(&self) -> bool {
        let both = self.first.load(Ordering::SeqCst) && self.second.load(Ordering::SeqCst);
        both && !self.missed.load(Ordering::SeqCst)
    }
}

impl Gate for Meeting {
    fn enter(&self, worker: u32, _task: u32) {
        let (mine, other) = match worker {
            0 => (&self.first, &self.second),
            1 => (&self.second, &self.first),
            _ => return,
        };
        mine.store(true, Ordering::SeqCst);
        for _ in 0..LOOKS {
            if other.load(Ordering::SeqCst) {
                return;
            }
            thread::yield_now();
        }
        self.missed.store(true, Ordering::SeqCst);
    }
}
