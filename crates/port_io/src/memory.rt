ghost use Rattle.std.specs.Prelude.{ℕ, ◌≡◌, ◌≢◌, ◌+◌, ◌<◌, ◌≤◌, ◌∷◌, ◌++◌, [], List, length, take, min, drop, true, Some, IfSome};
ghost use Rattle.port_io.specs.Port.{GotWithin, Reads, ReadFaults, TookWithin, Writes, WriteFaults};
ghost use Rattle.port_io.specs.Memory.{is_listed, read_answer, after_read, after_write};

use crate::port::{Got, Put, Sink, Source};
use port_base::FaultCount;
use std::alloc::Global;
use std::marker::Model;

/// A source in memory, some of whose calls fail.
#[derive(Drop)]
pub struct MemSource {
    bytes: Vec<u8>,
    at: usize,
    fails: Vec<u64>,
    calls: u64,
    faults: FaultCount,
}

impl Model for MemSource {
    ghost use Rattle.std.specs.Prelude.{◌≤◌, drop, vec_len};
    ghost use Rattle.port_io.specs.Memory.{SourceState};

    ghost Value = { SourceState };

    ghost view = { λ s. record { left = drop s.at s.bytes.items; fails = s.fails.items; calls = s.calls; faults = s.faults } };

    ghost invariant = { λ s. s.at ≤ vec_len s.bytes };
}

impl MemSource {
    /// A source of these bytes. Its calls with these numbers, from 1, fail.
    pub fn new(bytes: Vec<u8>, fails: Vec<u64>) -> MemSource
        ensures { result ≡ record { left = bytes.items; fails = fails.items; calls = 0; faults = 0 } }
    {
        MemSource {
            bytes,
            at: 0,
            fails,
            calls: 0,
            faults: FaultCount::new(),
        }
    }
}

impl Source for MemSource {
    ghost use Rattle.std.specs.Prelude.{Some};

    ghost left = { λ s. Some s.left };

    ghost faults = { λ s. s.faults };

    fn read(&mut self, buf: &mut [u8]) -> Got
        requires { 0 < length buf.old }
        ensures within { GotWithin result (length buf.old) }
        ensures bytes { Reads (Some self.old.left) (Some self.new.left) result buf.new }
        ensures cause { ReadFaults result self.old.faults self.new.faults }
        ensures answer { result ≡ read_answer self.old (length buf.old) }
        ensures state { self.new ≡ after_read self.old result }
    {
        self.calls = self.calls.saturating_add(1);
        if self.fails.contains(&self.calls) {
            self.faults.rise();
            return Got::Failed;
        }
        let left = self.bytes.len() - self.at;
        if left == 0 {
            return Got::End;
        }
        let count = buf.len().min(left);
        buf[..count].copy_from_slice(&self.bytes[self.at..self.at + count]);
        self.at += count;
        Got::Bytes(count)
    }
}

/// A sink in memory, some of whose calls fail.
#[derive(Drop)]
pub struct MemSink {
    held: Vec<u8>,
    fails: Vec<u64>,
    calls: u64,
    faults: FaultCount,
}

impl Model for MemSink {
    ghost use Rattle.port_io.specs.Memory.{SinkState};

    ghost Value = { SinkState };

    ghost view = { λ s. record { held = s.held.items; fails = s.fails.items; calls = s.calls; faults = s.faults } };
}

impl MemSink {
    /// An empty sink. Its calls with these numbers, from 1, fail.
    pub fn new(alloc: Global, fails: Vec<u64>) -> MemSink
        ensures { result ≡ record { held = []; fails = fails.items; calls = 0; faults = 0 } }
    {
        MemSink {
            held: Vec::new(alloc),
            fails,
            calls: 0,
            faults: FaultCount::new(),
        }
    }

    /// What it holds.
    pub fn bytes(&self) -> &[u8]
        ensures { result.now ≡ self.now.held }
    {
        self.held.as_slice()
    }
}

impl Sink for MemSink {
    ghost use Rattle.std.specs.Prelude.{Some};

    ghost held = { λ s. Some s.held };

    ghost faults = { λ s. s.faults };

    /// A call also fails where there is no memory for the piece.
    fn write(&mut self, piece: &[u8]) -> Put
        requires { 0 < length piece.now }
        ensures within { TookWithin result (length piece.now) }
        ensures bytes { Writes (Some self.old.held) (Some self.new.held) result piece.now }
        ensures cause { WriteFaults result self.old.faults self.new.faults }
        ensures listed { is_listed self.old.fails self.old.calls ≡ true → result ≡ Put.Failed }
        ensures whole { result ≢ Put.Failed → result ≡ Put.Took (length piece.now) }
        ensures state { self.new ≡ after_write self.old piece.now result }
    {
        self.calls = self.calls.saturating_add(1);
        if self.fails.contains(&self.calls) {
            self.faults.rise();
            return Put::Failed;
        }
        if self.held.extend_from_slice(piece).is_err() {
            self.faults.rise();
            return Put::Failed;
        }
        Put::Took(piece.len())
    }
}
