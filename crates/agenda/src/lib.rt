//! The pending times of the sources of digital work: the first transaction of each driver, the timeout of each process.
#![tactic(auto)]

ghost use Rattle.std.specs.Prelude.{◌≡◌, ◌≤◌, ◌<◌, ◌↔◌, ◌||◌, ◌&&◌, ℕ, not, length, replicate, Some, None, IfOk, OnOk, OnErr, IsNone, IfSome, position, slice_index_or, slice_set};
ghost use Rattle.std.specs.List.{All, Contains};
ghost use Rattle.std.specs.BTreeSet.{contains};
ghost use Rattle.step_data.specs.Times.{earliest_of};
ghost use Rattle.agenda.specs.Times.{pair_cmp, is_time, is_key, IsLeast};

use fix_core::Tick;
use std::alloc::{AllocError, Global};
use std::collections::BTreeSet;
use std::marker::Model;

/// An optional time for each source by its number. The least one is found without a look at all of them.
#[derive(Drop)]
pub struct Agenda {
    times: Vec<Option<Tick>>,
    order: BTreeSet<(u64, u32)>,
}

impl Model for Agenda {
    ghost use Rattle.std.specs.Prelude.{ℕ, List, Option};

    ghost Value = { List (Option ℕ) };

    ghost use Rattle.agenda.specs.Order.{IsInOrder};

    ghost view = { λ a. a.times.items };

    ghost invariant = { IsInOrder };
}

/// Puts a source's time into the order.
fn enter(order: &mut BTreeSet<(u64, u32)>, source: u32, at: Option<Tick>) -> Result<(), AllocError>
    ensures ok { OnOk result ((t s : ℕ) → contains pair_cmp order.new (t, s) ≡ (is_key at source t s || contains pair_cmp order.old (t, s))) }
    ensures err { OnErr result ((t s : ℕ) → contains pair_cmp order.new (t, s) ≡ contains pair_cmp order.old (t, s)) }
{
    if let Some(t) = at {
        order.insert((t.get(), source))?;
    }
    Ok(())
}

/// Takes a source's time out of the order.
fn leave(order: &mut BTreeSet<(u64, u32)>, source: u32, at: Option<Tick>)
    ensures { (t s : ℕ) → contains pair_cmp order.new (t, s) ≡ (contains pair_cmp order.old (t, s) && not (is_key at source t s)) }
{
    if let Some(t) = at {
        let _ = order.remove(&(t.get(), source));
    }
}

impl Agenda {
    /// So many sources, none of which has a time.
    pub fn new(alloc: Global, sources: u32) -> Result<Agenda, AllocError>
        ensures { IfOk result (λ agenda. agenda ≡ replicate sources None) }
    {
        let times = vec![in alloc; None; sources as usize]?;
        Ok(Agenda {
            times,
            order: BTreeSet::new(alloc),
        })
    }

    /// How many sources there are.
    pub fn len(&self) -> usize
        ensures { result ≡ length self.now }
    {
        self.times.len()
    }

    /// The time of a source.
    pub fn get(&self, source: u32) -> Option<Tick>
        requires { source < length self.now }
        ensures { result ≡ slice_index_or self.now source None }
    {
        self.times[source as usize]
    }

    /// Gives a source a time or none; where no memory is found nothing changes.
    pub fn set(&mut self, source: u32, at: Option<Tick>) -> Result<(), AllocError>
        requires { source < length self.old }
        ensures ok { OnOk result (self.new ≡ slice_set self.old source at) }
        ensures err { OnErr result (self.new ≡ self.old) }
    {
        let before = self.times[source as usize];
        if before == at {
            return Ok(());
        }
        enter(&mut self.order, source, at)?;
        leave(&mut self.order, source, before);
        self.times[source as usize] = at;
        Ok(())
    }

    /// Takes a source's time out, without memory.
    pub fn forget(&mut self, source: u32)
        requires { source < length self.old }
        ensures { self.new ≡ slice_set self.old source None }
    {
        let last = self.times[source as usize];
        leave(&mut self.order, source, last);
        self.times[source as usize] = None;
    }

    /// The first source whose time is `t`, where no time is earlier.
    pub fn first_at(&self, t: Tick) -> Option<u32>
        requires { All (λ time. IfSome time (λ u. t ≤ u)) self.now }
        ensures { result ≡ position (λ time. is_time time t) self.now }
    {
        let Some(key) = self.order.first() else {
            return None;
        };
        let (time, source) = *key;
        if time == t.get() { Some(source) } else { None }
    }

    /// The least time.
    pub fn least(&self) -> Option<Tick>
        ensures earliest { result ≡ earliest_of self.now }
        ensures none { IsNone result ↔ All (λ time. time ≡ None) self.now }
        ensures least { IfSome result (λ t. IsLeast t self.now) }
    {
        match self.order.first() {
            Some(key) => {
                let (_, source) = *key;
                self.times[source as usize]
            }
            None => None,
        }
    }
}
