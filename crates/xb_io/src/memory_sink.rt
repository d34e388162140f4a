ghost use Rattle.std.specs.Prelude.{◌≡◌, ℕ, ◌+◌, ◌-◌, ◌<◌, ◌≤◌, [], ◌++◌, Some, IfOk, IsOk, IsErr, OnOk, OnErr, true, false, ◌==◌, length, take, vec_len, vec_capacity};
ghost use Rattle.xb_io.specs.Failing.{is_listed};
ghost use Rattle.xb_io.specs.Counts.{HasRisen, raised_by};
ghost use Rattle.xb_io.specs.Sink.{AppendsPrefix};
ghost use Rattle.std.specs.Io.KnownBytes.{Appends};

use crate::failing::is_listed;
use crate::sink::{Failed, Sink};
use std::alloc::{AllocError, Global};

/// A sink in memory, with a list of the calls of `put`, counted from 0, that are to fail. Its room is
/// taken when it is made: a put past it fills it and is a fault. A call that is to fail takes nothing.
#[derive(Drop)]
pub struct MemSink {
    pub bytes: Vec<u8>,
    pub room: usize,
    pub failing: Vec<u64>,
    pub calls: u64,
    pub faults: u64,
    ghost within_room: { vec_len bytes ≤ room },
    ghost has_room: { room ≤ vec_capacity bytes },
}

impl MemSink {
    pub fn new(alloc: Global, room: usize, failing: Vec<u64>) -> Result<MemSink, AllocError>
        ensures empty { IfOk result (λ sink. sink.bytes.items ≡ []) }
        ensures room { IfOk result (λ sink. sink.room ≡ room) }
        ensures failing { IfOk result (λ sink. sink.failing ≡ failing) }
        ensures counts { IfOk result (λ sink. (sink.calls ≡ 0) × (sink.faults ≡ 0)) }
    {
        Ok(MemSink {
            bytes: Vec::with_capacity(alloc, room)?,
            room,
            failing,
            calls: 0,
            faults: 0,
        })
    }
}

impl Sink for MemSink {
    ghost written = { λ it. Some it.bytes.items };

    ghost faults = { λ it. it.faults };

    fn put(&mut self, piece: &[u8]) -> Result<(), Failed>
        ensures faults_never_fall { self.old.faults ≤ self.new.faults }
        ensures ok { OnOk result (Appends (Some self.old.bytes.items) (Some self.new.bytes.items) piece.now) }
        ensures ok_without_fault { OnOk result (self.new.faults ≡ self.old.faults) }
        ensures failed { OnErr result (AppendsPrefix (Some self.old.bytes.items) (Some self.new.bytes.items) piece.now) }
        ensures failed_by_fault { OnErr result (HasRisen self.old.faults self.new.faults) }

        // Each call counts. A listed one fails and takes nothing; any other takes what has room, and fills the room with
        // what hasn't.
        ensures calls { self.new.calls ≡ raised_by 1 self.old.calls }
        ensures room_stays { self.new.room ≡ self.old.room }
        ensures failing_stays { self.new.failing ≡ self.old.failing }
        ensures listed_fails { is_listed self.old.failing.items self.old.calls ≡ true →
            IsErr result × (self.new.bytes.items ≡ self.old.bytes.items) }
        ensures takes_what_fits { is_listed self.old.failing.items self.old.calls ≡ false →
            vec_len self.old.bytes + length piece.now ≤ self.old.room → IsOk result }
        ensures fills_the_room { is_listed self.old.failing.items self.old.calls ≡ false →
            self.old.room < vec_len self.old.bytes + length piece.now →
            IsErr result × (self.new.bytes.items ≡ self.old.bytes.items ++ take (self.old.room - vec_len self.old.bytes) piece.now) }
    {
        let call = self.calls;
        self.calls = call.saturating_add(1);
        if is_listed(&self.failing, call) {
            self.faults = self.faults.saturating_add(1);
            return Err(Failed);
        }
        let free = self.room - self.bytes.len();
        if piece.len() <= free {
            self.bytes.extend_from_slice(piece).unwrap();
            return Ok(());
        }
        self.bytes.extend_from_slice(&piece[..free]).unwrap();
        self.faults = self.faults.saturating_add(1);
        Err(Failed)
    }
}
