//! The values of the signals, and which of them had an event.
#![tactic(auto)]

ghost use Rattle.std.specs.Prelude.{IsTrue, ◌↔◌, [], ◌≡◌, ◌≢◌, ◌<◌, length, vec_len, replicate, slice_get, slice_set, true, false, if◌then◌else◌, Some, IfOk};
ghost use Rattle.std.specs.Bool.{MatchBool};
ghost use Rattle.signal_store.specs.Signals.{Signals};

use ams_value::Val;
use std::alloc::{AllocError, Global};
use std::marker::Model;

/// A value for each signal by its number, and whether the signal had an event since the events were last cleared.
#[derive(Drop)]
pub struct SignalStore {
    values: Vec<Val>,
    events: Vec<bool>,
}

impl Model for SignalStore {
    ghost use Rattle.std.specs.Prelude.{◌≡◌, length};
    ghost use Rattle.signal_store.specs.Signals.{Signals};

    ghost Value = { Signals };

    ghost view = { λ a. record { values = a.values.items; events = a.events.items } };

    ghost invariant = { λ a. length a.events.items ≡ length a.values.items };
}

impl SignalStore {
    /// The signals of these values, none of which had an event.
    pub fn new(alloc: Global, values: Vec<Val>) -> Result<SignalStore, AllocError>
        ensures { IfOk result (λ store. store ≡ record { values = values.items; events = replicate (vec_len values) false }) }
    {
        let events = vec![in alloc; false; values.len()]?;
        Ok(SignalStore { values, events })
    }

    /// How many signals there are.
    pub fn len(&self) -> usize
        ensures values { result ≡ length self.now.values }
        ensures events { result ≡ length self.now.events }
    {
        self.values.len()
    }

    /// There is no signal.
    pub fn is_empty(&self) -> bool
        ensures { IsTrue result ↔ (self.now.values ≡ []) }
    {
        self.values.is_empty()
    }

    /// The values by the numbers of their signals.
    pub fn values(&self) -> &[Val]
        ensures { result.now ≡ self.now.values }
    {
        self.values.as_slice()
    }

    /// The value of a signal.
    pub fn get(&self, i: u32) -> Val
        requires { i < length self.now.values }
        ensures { slice_get self.now.values i ≡ Some result }
    {
        self.values[i as usize]
    }

    /// Gives a signal a value. It answers whether the value changed, which is an event (IEEE 1076).
    pub fn set(&mut self, i: u32, v: Val) -> bool
        requires { i < length self.old.values }
        ensures changed { MatchBool result (slice_get self.old.values i ≢ Some v) (slice_get self.old.values i ≡ Some v) }
        ensures values { self.new.values ≡ slice_set self.old.values i v }
        ensures events { self.new.events ≡ (if result then slice_set self.old.events i true else self.old.events) }
    {
        let i = i as usize;
        if self.values[i] == v {
            return false;
        }
        self.values[i] = v;
        self.events[i] = true;
        true
    }

    /// Whether the signal had an event since the events were last cleared.
    pub fn had_event(&self, i: u32) -> bool
        requires { i < length self.now.values }
        ensures { slice_get self.now.events i ≡ Some result }
    {
        self.events[i as usize]
    }

    /// Forgets the events.
    pub fn clear(&mut self)
        ensures { self.new ≡ record { values = self.old.values; events = replicate (length self.old.values) false } }
    {
        self.events.as_mut_slice().fill(false);
    }
}
