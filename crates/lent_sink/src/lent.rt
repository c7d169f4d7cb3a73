//! The lent sink.
ghost use Rattle.std.specs.Prelude.{◌≡◌, ℕ};

use port_io::{Put, Sink};
use std::marker::{Brand, PhantomData};

/// Names the borrow of a sink. Whoever has a value whose type takes the name has that borrow.
pub trait Lender {
    ghost name: { ℕ };
}

/// A call that passes `Brand` picks the name.
impl Lender for Brand {
    ghost name = { 0 };
}

/// A sink that is lent. Whatever call it comes back from, it is the one that was lent.
#[derive(Drop)]
pub struct Lent<'a, K: Sink, N: Lender> {
    pub sink: &'a mut K,
    pub of: PhantomData<N>,
    pub ghost same: { sink.ghost_name ≡ N.name },
}

impl<'a, K: Sink, N: Lender> Sink for Lent<'a, K, N> {
    ghost held = { λ lent. K.held lent.sink.now };

    ghost faults = { λ lent. K.faults lent.sink.now };

    fn write(&mut self, piece: &[u8]) -> Put {
        self.sink.write(piece)
    }
}
