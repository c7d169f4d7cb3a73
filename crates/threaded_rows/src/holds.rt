use runahead_worker::{Gate, Place};
use std::sync::Wait;
use std::sync::atomic::{AtomicU64, Ordering};
use std::thread;

/// Whoever passes a place for this time waits there until another place was passed so often.
#[derive(Clone, Copy, Debug, PartialEq, Eq)]
pub struct Hold {
    pub at: Place,
    pub time: u64,
    pub until: Place,
    pub count: u64,
}

/// Holds the kernels at chosen places, each for so many turns at most.
#[derive(Drop)]
pub struct Holds {
    holds: &'static [Hold],
    taken: AtomicU64,
    published: AtomicU64,
    moves: AtomicU64,
    cycles: AtomicU64,
    given_up: AtomicU64,
}

const TURNS: u64 = 10_000_000;

impl Holds {
    pub fn new(holds: &'static [Hold]) -> Holds {
        Holds {
            holds,
            taken: AtomicU64::new(0),
            published: AtomicU64::new(0),
            moves: AtomicU64::new(0),
            cycles: AtomicU64::new(0),
            given_up: AtomicU64::new(0),
        }
    }

    /// How often a place was passed.
    fn passes(&self, place: Place) -> &AtomicU64 {
        match place {
            Place::Taken => &self.taken,
            Place::Published => &self.published,
            Place::Move => &self.moves,
            Place::Cycled => &self.cycles,
        }
    }

    /// Waits until a place was passed so often, or for as long as it may.
    fn wait(&self, place: Place, count: u64) {
        let passes = self.passes(place);
        for _ in 0..TURNS {
            if passes.load(Ordering::SeqCst) >= count {
                return;
            }
            thread::yield_now();
        }
        self.given_up.store(1, Ordering::SeqCst);
    }

    /// A hold lasted too long.
    pub fn gave_up(&self) -> bool {
        self.given_up.load(Ordering::SeqCst) != 0
    }
}

impl Gate for Holds {
    fn pass<R: Wait>(&self, _rt: &R, place: Place) {
        let time = self
            .passes(place)
            .fetch_add(1, Ordering::SeqCst)
            .wrapping_add(1);
        for hold in self.holds {
            if hold.at == place && hold.time == time {
                self.wait(hold.until, hold.count);
            }
        }
    }
}
