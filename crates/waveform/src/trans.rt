//! Transactions, and lists of them.

ghost use Rattle.std.specs.Prelude.{◌≡◌, ◌+◌, ◌-◌, ◌≤◌, ◌<◌, ◌++◌, ◌↔◌, [], length, take, drop, remove, slice_get, Some, IsTrue, IsOk, OnOk, OnErr};

use crate::project::{Kept, move_down};
use smallvec::SmallVec;
use std::alloc::{AllocError, Global};
use std::marker::Model;
use step_data::Trans;

/// How an assignment treats the old transactions (IEEE 1076, signal assignment).
#[derive(Clone, Copy, Debug, PartialEq, Eq)]
pub enum DelayKind {
    /// Old transactions before the first new one stay.
    Transport,
    /// Pulses shorter than the rejection limit go.
    Inertial,
}

/// How many transactions a list holds without heap memory.
pub const INLINE_PLACES: usize = 4;

/// Makes room for so many elements. The first `INLINE_PLACES` need none.
fn reserve_for(
    items: &mut SmallVec<Trans, INLINE_PLACES>,
    stays: usize,
    more: usize,
) -> Result<(), AllocError>
    ensures items { items.new.items ≡ items.old.items }
    ensures room { OnOk result (stays + more ≤ items.new.capacity) }
    ensures inline { stays + more ≤ INLINE_PLACES → IsOk result }
{
    let Some(wanted) = stays.checked_add(more) else {
        return Err(AllocError);
    };
    if wanted <= items.capacity() {
        return Ok(());
    }
    items.reserve(wanted.saturating_sub(items.len()))
}

/// Transactions in order. Up to `INLINE_PLACES` of them need no heap memory.
#[derive(Drop)]
pub struct TransList {
    items: SmallVec<Trans, INLINE_PLACES>,
}

impl Model for TransList {
    ghost use Rattle.std.specs.Prelude.{List};
    ghost use Rattle.step_data.specs.declared.trans.Trans.{Trans};

    ghost Value = { List Trans };

    ghost view = { λ a. a.items.items };
}

impl TransList {
    /// No transaction.
    pub fn new(alloc: Global) -> TransList
        ensures { result ≡ [] }
    {
        TransList {
            items: SmallVec::new(alloc),
        }
    }

    pub fn len(&self) -> usize
        ensures { result ≡ length self.now }
    {
        self.items.len()
    }

    /// There is no transaction.
    pub fn is_empty(&self) -> bool
        ensures { IsTrue result ↔ (self.now ≡ []) }
    {
        self.items.is_empty()
    }

    /// The transaction of a place.
    pub fn get(&self, i: usize) -> Trans
        requires { i < length self.now }
        ensures { slice_get self.now i ≡ Some result }
    {
        self.items.as_slice()[i]
    }

    /// The transactions.
    pub fn as_slice(&self) -> &[Trans]
        ensures { result.now ≡ self.now }
    {
        self.items.as_slice()
    }

    /// Takes the first transaction out.
    pub(crate) fn drop_first(&mut self)
        requires { 0 < length self.old }
        ensures { self.new ≡ drop 1 self.old }
    {
        let _ = self.items.remove(0);
    }

    /// Keeps some of the transactions, and puts others behind them.
    pub(crate) fn replace(&mut self, kept: Kept, new: &[Trans]) -> Result<(), AllocError>
        requires early { kept.early ≤ kept.from }
        requires from { kept.from ≤ kept.end }
        requires end { kept.end ≤ length self.old }
        ensures ok { OnOk result (self.new ≡ take kept.early self.old ++ drop kept.from (take kept.end self.old) ++ new.now) }
        ensures err { OnErr result (self.new ≡ self.old) }
        ensures inline { kept.early + (kept.end - kept.from) + length new.now ≤ INLINE_PLACES → IsOk result }
    {
        let stays = kept.early + (kept.end - kept.from);
        reserve_for(&mut self.items, stays, new.len())?;
        self.items.truncate(kept.end);
        move_down(self.items.as_mut_slice(), kept.early, kept.from);
        self.items.truncate(stays);
        self.items.extend_from_slice(new)
    }
}
