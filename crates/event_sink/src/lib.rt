//! Where the events of a run go.
#![tactic(auto)]

ghost use Rattle.std.specs.Prelude.{◌≡◌, ◌≤◌, ◌++◌, ℕ, List, [], OnOk, IfErr, Err};
ghost use Rattle.step_data.specs.declared.event.Event.{Event};
ghost use Rattle.event_sink.specs.Faults.{Rose};
ghost use Rattle.event_sink.specs.declared.SinkFault.{SinkFault as Fault};
ghost use Rattle.event_sink.specs.declared.SinkFault.TheVariants as faulty;

use step_data::EventList;

/// Why events aren't taken in to their end.
#[derive(Clone, Copy, Debug, PartialEq, Eq)]
pub enum SinkFault {
    /// What takes them failed.
    Failed,
    Memory,
}

/// What takes in the events of a run, in order.
pub trait EventSink {
    /// Between these two states exactly these events were taken in.
    ghost gained: { Self → Self → List Event → Type 0 };

    /// Between these two states a front of what these events give was taken in, until this fault.
    ghost stopped: { Fault → Self → Self → List Event → Type 0 };

    /// How often it failed, up to the greatest number.
    ghost faults: { Self → ℕ };

    /// Takes in all events, in order.
    fn take_in(&mut self, events: &EventList) -> Result<(), SinkFault>
        ensures ok { OnOk result (gained self.old self.new events.now) }
        ensures err { IfErr result (λ fault. stopped fault self.old self.new events.now) }
        ensures rose { result ≡ Err faulty.Failed → Rose (faults self.old) (faults self.new) }
        ensures later { faults self.old ≤ faults self.new };

    ghost nothing: { (a : Self) → gained a a [] };

    ghost joins: { (a b c : Self) (xs ys : List Event) → gained a b xs → gained b c ys → gained a c (xs ++ ys) };

    ghost stops: { (fault : Fault) (a b c : Self) (xs ys : List Event) → gained a b xs → stopped fault b c ys → stopped fault a c (xs ++ ys) };

    /// What comes behind a fault isn't taken in.
    ghost ends: { (fault : Fault) (a b : Self) (xs ys : List Event) → stopped fault a b xs → stopped fault a b (xs ++ ys) };

    /// Where memory runs out between two calls, what was taken in before is a front.
    ghost lost: { (a b : Self) (xs ys : List Event) → gained a b xs → stopped faulty.Memory a b (xs ++ ys) };
}
