//! Which old transactions an assignment keeps.

ghost use Rattle.std.specs.Prelude.{◌≡◌, ℕ, ◌+◌, ◌-◌, ◌≤◌, ◌<◌, ◌++◌, length, take, drop, filter, slice_index_or, IsTrue, ◌↔◌, false};
ghost use Rattle.std.specs.List.{All};
ghost use Rattle.ams_value.specs.Values.{equals};
ghost use Rattle.step_data.specs.declared.trans.Trans.{Trans};
ghost use Rattle.waveform.specs.Projected.{is_before, kept, marked, IsRising, KeepsRising};

use crate::trans::DelayKind;
use ams_value::equal;
use fix_core::Tick;
use step_data::Trans;

/// The times of a projected waveform rise. It is proved, and does nothing when it runs.
#[tactic(auto, using(crate::proofs::Rising::laws))]
pub fn projection_keeps_times_rising()
    ensures { KeepsRising }
{}

/// Of a list of transactions those before `early`, and those from `from` up to `end`.
#[derive(Clone, Copy)]
pub struct Kept {
    pub early: usize,
    pub from: usize,
    pub end: usize,
}

/// The two transactions have equal values.
#[tactic(auto, using(crate::proofs::Kept::values))]
fn is_same(a: &Trans, b: &Trans) -> bool
    ensures test { result ≡ equals a.now.value b.now.value }
    ensures same { IsTrue result ↔ (a.now.value ≡ b.now.value) }
{
    equal(a.value, b.value)
}

/// How many transactions stand before a time.
#[tactic(auto, using(crate::proofs::Kept::cuts))]
pub fn count_before(pending: &[Trans], t: Tick) -> usize
    requires { IsRising pending.now }
    ensures before { filter (is_before t) pending.now ≡ take result pending.now }
    ensures within { result ≤ length pending.now }
{
    let mut end = pending.len();
    while end > 0 {
        let last = pending[end - 1];
        if last.at.get() < t.get() {
            return end;
        }
        end -= 1;
    }
    0
}

/// From which place on all values are that of `first`.
#[tactic(auto, using(crate::proofs::Kept::cuts))]
fn equal_from(old: &[Trans], first: &Trans) -> usize
    ensures within { result ≤ length old.now }
    ensures equal { All (λ x. x.value ≡ first.now.value) (drop result old.now) }
    ensures differs { (d : Trans) → 0 < result → equals (slice_index_or old.now (result - 1) d).value first.now.value ≡ false }
{
    let mut from = old.len();
    while from > 0 {
        if !is_same(&old[from - 1], first) {
            return from;
        }
        from -= 1;
    }
    0
}

/// How many of the first transactions, up to `from` of them, stand before the limit.
#[tactic(auto, using(crate::proofs::Kept::cuts))]
fn early_of(old: &[Trans], from: usize, limit: u64) -> usize
    requires within { from ≤ length old.now }
    ensures bound { result ≤ from }
    ensures early { All (λ x. x.at < limit) (take result old.now) }
    ensures late { (d : Trans) → result < from → limit ≤ (slice_index_or old.now result d).at }
{
    for early in 0..from {
        let next = old[early];
        if next.at.get() >= limit {
            return early;
        }
    }
    from
}

/// Which of the pending transactions an assignment keeps.
pub fn kept_of(pending: &[Trans], kind: DelayKind, reject: u64, first: Trans) -> Kept
    requires { IsRising pending.now }
    ensures kept { kept kind reject first (filter (is_before first.at) pending.now) ≡ take result.early pending.now ++ drop result.from (take result.end pending.now) }
    ensures early { result.early ≤ result.from }
    ensures from { result.from ≤ result.end }
    ensures end { result.end ≤ length pending.now }
{
    let end = count_before(pending, first.at);
    match kind {
        DelayKind::Transport => Kept {
            early: end,
            from: end,
            end,
        },
        DelayKind::Inertial => {
            let old = &pending[..end];
            let from = equal_from(old, &first);
            let early = early_of(old, from, first.at.get().saturating_sub(reject));
            Kept { early, from, end }
        }
    }
}

/// Moves the transactions from `from` on down to `early`.
pub fn move_down(items: &mut [Trans], early: usize, from: usize)
    requires early { early ≤ from }
    requires from { from ≤ length items.old }
    ensures { take (early + (length items.old - from)) items.new ≡ take early items.old ++ drop from items.old }
{
    items[early..].rotate_left(from - early);
}
