//! A sink in memory that takes bytes in pieces.
ghost use Rattle.std.specs.Prelude.{◌≡◌, ◌≢◌, ◌<◌, [], length, min, true, Some};
ghost use Rattle.port_io.specs.Port.{TookWithin, Writes, WriteFaults};
ghost use Rattle.port_io.specs.Memory.{is_listed};
ghost use Rattle.port_pieces.specs.Pieces.{after_write};

use port_base::FaultCount;
use port_io::{Put, Sink};
use std::alloc::Global;
use std::marker::Model;

/// A sink in memory that takes at most so many bytes in one call. Some of its calls fail.
#[derive(Drop)]
pub struct PieceSink {
    held: Vec<u8>,
    most: usize,
    fails: Vec<u64>,
    calls: u64,
    faults: FaultCount,
}

impl Model for PieceSink {
    ghost use Rattle.std.specs.Prelude.{◌<◌};
    ghost use Rattle.port_pieces.specs.Pieces.{PieceSinkState};

    ghost Value = { PieceSinkState };

    ghost view = { λ s. record { held = s.held.items; most = s.most; fails = s.fails.items; calls = s.calls; faults = s.faults } };

    ghost invariant = { λ s. 0 < s.most };
}

impl PieceSink {
    /// An empty sink that takes pieces of at most so many bytes. Its calls with these numbers, from 1, fail.
    pub fn new(alloc: Global, most: usize, fails: Vec<u64>) -> PieceSink
        requires { 0 < most }
        ensures { result ≡ record { held = []; most = most; fails = fails.items; calls = 0; faults = 0 } }
    {
        PieceSink {
            held: Vec::new(alloc),
            most,
            fails,
            calls: 0,
            faults: FaultCount::new(),
        }
    }

    /// What it holds.
    pub fn bytes(&self) -> &[u8]
        ensures { result.now ≡ self.now.held }
    {
        self.held.as_slice()
    }

    /// How many calls there were.
    pub fn calls(&self) -> u64
        ensures { result ≡ self.now.calls }
    {
        self.calls
    }
}

impl Sink for PieceSink {
    ghost use Rattle.std.specs.Prelude.{Some};

    ghost held = { λ s. Some s.held };

    ghost faults = { λ s. s.faults };

    /// A call also fails where there is no memory for the piece.
    fn write(&mut self, piece: &[u8]) -> Put
        requires { 0 < length piece.now }
        ensures within { TookWithin result (length piece.now) }
        ensures bytes { Writes (Some self.old.held) (Some self.new.held) result piece.now }
        ensures cause { WriteFaults result self.old.faults self.new.faults }
        ensures listed { is_listed self.old.fails self.old.calls ≡ true → result ≡ Put.Failed }
        ensures most { result ≢ Put.Failed → result ≡ Put.Took (min (length piece.now) self.old.most) }
        ensures state { self.new ≡ after_write self.old piece.now result }
    {
        self.calls = self.calls.saturating_add(1);
        if self.fails.contains(&self.calls) {
            self.faults.rise();
            return Put::Failed;
        }
        let count = piece.len().min(self.most);
        if self.held.extend_from_slice(&piece[..count]).is_err() {
            self.faults.rise();
            return Put::Failed;
        }
        Put::Took(count)
    }
}
