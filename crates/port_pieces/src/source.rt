//! A source in memory that gives its bytes in pieces.
ghost use Rattle.std.specs.Prelude.{◌≡◌, ◌<◌, ◌≤◌, length, Some};
ghost use Rattle.port_io.specs.Port.{GotWithin, Reads, ReadFaults};
ghost use Rattle.port_pieces.specs.Pieces.{read_answer, after_read};

use port_base::FaultCount;
use port_io::{Got, Source};
use std::marker::Model;

/// A source in memory that gives at most so many bytes in one call. Some of its calls fail.
#[derive(Drop)]
pub struct PieceSource {
    bytes: Vec<u8>,
    at: usize,
    most: usize,
    fails: Vec<u64>,
    calls: u64,
    faults: FaultCount,
}

impl Model for PieceSource {
    ghost use Rattle.std.specs.Prelude.{◌≤◌, ◌<◌, drop, vec_len};
    ghost use Rattle.port_pieces.specs.Pieces.{PieceSourceState};

    ghost Value = { PieceSourceState };

    ghost view = { λ s. record { left = drop s.at s.bytes.items; most = s.most; fails = s.fails.items; calls = s.calls; faults = s.faults } };

    ghost invariant = { λ s. (s.at ≤ vec_len s.bytes) × (0 < s.most) };
}

impl PieceSource {
    /// A source of these bytes, in pieces of at most so many. Its calls with these numbers, from 1, fail.
    pub fn new(bytes: Vec<u8>, most: usize, fails: Vec<u64>) -> PieceSource
        requires { 0 < most }
        ensures { result ≡ record { left = bytes.items; most = most; fails = fails.items; calls = 0; faults = 0 } }
    {
        PieceSource {
            bytes,
            at: 0,
            most,
            fails,
            calls: 0,
            faults: FaultCount::new(),
        }
    }
}

impl Source for PieceSource {
    ghost use Rattle.std.specs.Prelude.{Some};

    ghost left = { λ s. Some s.left };

    ghost faults = { λ s. s.faults };

    fn read(&mut self, buf: &mut [u8]) -> Got
        requires { 0 < length buf.old }
        ensures within { GotWithin result (length buf.old) }
        ensures bytes { Reads (Some self.old.left) (Some self.new.left) result buf.new }
        ensures cause { ReadFaults result self.old.faults self.new.faults }
        ensures answer { result ≡ read_answer self.old (length buf.old) }
        ensures state { self.new ≡ after_read self.old result }
    {
        self.calls = self.calls.saturating_add(1);
        if self.fails.contains(&self.calls) {
            self.faults.rise();
            return Got::Failed;
        }
        let left = self.bytes.len() - self.at;
        if left == 0 {
            return Got::End;
        }
        let count = buf.len().min(self.most).min(left);
        buf[..count].copy_from_slice(&self.bytes[self.at..self.at + count]);
        self.at += count;
        Got::Bytes(count)
    }
}
