//! The driver of a signal.

ghost use Rattle.std.specs.Prelude.{◌≡◌, ◌+◌, ◌≤◌, ◌<◌, ◌↔◌, [], length, IsTrue, IsOk, OnOk, OnErr, slice_get};
ghost use Rattle.std.specs.List.{All, Any};
ghost use Rattle.std.specs.Option.{option_map};
ghost use Rattle.waveform.specs.Projected.{IsRising, projected};
ghost use Rattle.waveform.specs.Waveform.{driver_at};

use crate::project::kept_of;
use crate::trans::{DelayKind, INLINE_PLACES, TransList};
use ams_value::Val;
use fix_core::Tick;
use std::alloc::{AllocError, Global};
use std::marker::Model;
use step_data::Trans;

/// The current value of a driver and its pending transactions, whose times rise (IEEE 1076, drivers).
#[derive(Drop)]
pub struct Driver {
    value: Val,
    pending: TransList,
}

impl Model for Driver {
    ghost use Rattle.waveform.specs.Projected.{IsRising};
    ghost use Rattle.waveform.specs.Waveform.{Waveform};

    ghost Value = { Waveform };

    ghost view = { λ a. record { value = a.value; pending = a.pending } };

    ghost invariant = { λ a. IsRising a.pending };
}

impl Driver {
    /// A driver of this value with no pending transaction.
    pub fn new(alloc: Global, value: Val) -> Driver
        ensures { result ≡ record { value = value; pending = [] } }
    {
        Driver {
            value,
            pending: TransList::new(alloc),
        }
    }

    /// The driving value.
    pub fn now_value(&self) -> Val
        ensures { result ≡ self.now.value }
    {
        self.value
    }

    /// The pending transactions.
    pub fn pending(&self) -> &TransList
        ensures value { result.now ≡ self.now.pending }
        ensures rising { IsRising self.now.pending }
    {
        &self.pending
    }

    /// The time of the first pending transaction.
    pub fn next_time(&self) -> Option<Tick>
        ensures { result ≡ option_map (λ x. x.at) (slice_get self.now.pending 0) }
    {
        self.pending.as_slice().first().map(|x| x.at)
    }

    /// Assigns a waveform at the time `now`: the pending transactions become the projected waveform
    /// (IEEE 1076, execution of a signal assignment).
    pub fn assign(
        &mut self,
        now: Tick,
        kind: DelayKind,
        reject: u64,
        new: &[Trans],
    ) -> Result<(), AllocError>
        requires some { 0 < length new.now }
        requires rising { IsRising new.now }
        requires later { All (λ x. now ≤ x.at) new.now }
        ensures ok { OnOk result (self.new ≡ record self.old { pending = projected kind reject self.old.pending new.now }) }
        ensures err { OnErr result (self.new ≡ self.old) }

        // Where no more transactions are pending then than stand inline, no heap memory is asked for.
        ensures inline { length (projected kind reject self.old.pending new.now) ≤ INLINE_PLACES → IsOk result }
    {
        let kept = kept_of(self.pending.as_slice(), kind, reject, new[0]);
        self.pending.replace(kept, new)
    }

    /// Takes over the transaction of the time `t`, and answers whether there was one.
    pub fn advance(&mut self, t: Tick) -> bool
        requires { All (λ x. t ≤ x.at) self.old.pending }
        ensures stood { IsTrue result ↔ Any (λ x. x.at ≡ t) self.old.pending }
        ensures after { self.new ≡ driver_at t self.old }
    {
        let Some(first) = self.pending.as_slice().first().copied() else {
            return false;
        };
        if first.at.get() != t.get() {
            return false;
        }
        self.value = first.value;
        self.pending.drop_first();
        true
    }
}
