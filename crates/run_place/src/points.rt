//! A point and the branches that changed before it.

ghost use Rattle.std.specs.Prelude.{◌≡◌, ◌<◌, ◌^◌, ◌++◌, ◌∷◌, [], ◌&&◌, ◌==◌, length, OnOk, OnErr};
ghost use Rattle.std.proofs.Common.{get_or};
ghost use Rattle.step_model.specs.Kernel.{AddsFront};
ghost use Rattle.lockstep_model.specs.Lockstep.{branch_event, branch_events};
ghost use Rattle.run_place.specs.Places.{branches_of};
ghost use Rattle.run_place.specs.Giving.{changes_at, point_at, bound_at};

use crate::place::RunPlace;
use fix_core::Tick;
use std::alloc::{AllocError, Global};
use step_data::{Choices, Event, EventList, Point};

/// When a point is reached: a time, and the delta at it.
#[derive(Clone, Copy, PartialEq, Eq)]
pub struct Reached {
    pub t: Tick,
    pub n: u32,
}

/// Gives a choice's new branch, unless it is the old one.
fn give_branch(
    out: &mut EventList,
    at: &Reached,
    k: u32,
    b: u32,
    is_same: bool,
) -> Result<(), AllocError>
    ensures ok { OnOk result (out.new ≡ out.old ++ branch_event is_same at.now.t at.now.n k b) }
    ensures err { OnErr result (out.new ≡ out.old) }
{
    if !is_same {
        out.push(Event::Branch {
            t: at.t,
            n: at.n,
            k,
            b,
        })?;
    }
    Ok(())
}

/// The branches before have this one in this place.
fn is_old(has_old: bool, old: &[u32], k: usize, b: u32) -> bool
    requires { k < length old.now }
    ensures { result ≡ (has_old && (b == get_or old.now k 0)) }
{
    has_old && b == old[k]
}

/// Gives the branch of each choice that is another one than before.
fn give_branches(
    out: &mut EventList,
    at: &Reached,
    branches: &[u32],
    has_old: bool,
    old: &[u32],
) -> Result<(), AllocError>
    requires few { length branches.now < 2 ^ 32 }
    requires lengths { length old.now ≡ length branches.now }
    ensures ok { OnOk result (out.new ≡ out.old ++ branch_events at.now.t at.now.n 0 branches.now (branches_of has_old old.now)) }
    ensures err { OnErr result (AddsFront out.old out.new (branch_events at.now.t at.now.n 0 branches.now (branches_of has_old old.now))) }
{
    for k in 0..branches.len() {
        let b = branches[k];
        let is_same = is_old(has_old, old, k, b);
        give_branch(out, at, k as u32, b, is_same)?;
    }
    Ok(())
}

impl RunPlace {
    /// Gives the branches that changed, where they were chosen.
    fn give_changes(
        &self,
        out: &mut EventList,
        at: &Reached,
        is_chosen: bool,
        branches: &Choices,
    ) -> Result<(), AllocError>
        requires few { length branches.now < 2 ^ 32 }
        requires lengths { length self.now.branches ≡ length branches.now }
        ensures ok { OnOk result (out.new ≡ out.old ++ changes_at self.now at.now.t at.now.n is_chosen branches.now) }
        ensures err { OnErr result (AddsFront out.old out.new (changes_at self.now at.now.t at.now.n is_chosen branches.now)) }
    {
        if !is_chosen {
            return Ok(());
        }
        give_branches(
            out,
            at,
            branches.as_slice(),
            self.has_branches,
            self.branches.as_slice(),
        )
    }

    /// Gives a point, and before it the branches that changed, where they were chosen.
    pub fn give_point(
        &self,
        alloc: Global,
        out: &mut EventList,
        at: &Reached,
        x: &Point,
        is_chosen: bool,
        branches: &Choices,
    ) -> Result<(), AllocError>
        requires few { length branches.now < 2 ^ 32 }
        requires lengths { length self.now.branches ≡ length branches.now }
        ensures ok { OnOk result (out.new ≡ out.old ++ point_at self.now at.now.t at.now.n x.now is_chosen branches.now) }
        ensures err { OnErr result (AddsFront out.old out.new (point_at self.now at.now.t at.now.n x.now is_chosen branches.now)) }
    {
        self.give_changes(out, at, is_chosen, branches)?;
        out.push_solved(alloc, at.t, at.n, x)
    }

    /// Gives the point that processes read, at the time and the delta.
    pub fn give_here(
        &self,
        alloc: Global,
        out: &mut EventList,
        is_chosen: bool,
        branches: &Choices,
    ) -> Result<(), AllocError>
        requires few { length branches.now < 2 ^ 32 }
        requires lengths { length self.now.branches ≡ length branches.now }
        ensures ok { OnOk result (out.new ≡ out.old ++ point_at self.now self.now.time self.now.delta self.now.point is_chosen branches.now) }
        ensures err { OnErr result (AddsFront out.old out.new (point_at self.now self.now.time self.now.delta self.now.point is_chosen branches.now)) }
    {
        let at = Reached {
            t: self.time,
            n: self.delta,
        };
        self.give_point(alloc, out, &at, &self.point, is_chosen, branches)
    }

    /// Gives the values at the later bound, at a time and its first delta.
    pub fn give_bound(
        &self,
        alloc: Global,
        out: &mut EventList,
        t: Tick,
        is_chosen: bool,
        branches: &Choices,
    ) -> Result<(), AllocError>
        requires few { length branches.now < 2 ^ 32 }
        requires lengths { length self.now.branches ≡ length branches.now }
        ensures ok { OnOk result (out.new ≡ out.old ++ point_at self.now t 0 self.now.at_hi is_chosen branches.now) }
        ensures err { OnErr result (AddsFront out.old out.new (point_at self.now t 0 self.now.at_hi is_chosen branches.now)) }
    {
        let at = Reached { t, n: 0 };
        self.give_point(alloc, out, &at, &self.at_hi, is_chosen, branches)
    }

    /// Gives the values at the later bound where the bounds are near enough.
    pub fn give_near(
        &self,
        alloc: Global,
        out: &mut EventList,
        is_chosen: bool,
        branches: &Choices,
    ) -> Result<(), AllocError>
        requires few { length branches.now < 2 ^ 32 }
        requires lengths { length self.now.branches ≡ length branches.now }
        ensures ok { OnOk result (out.new ≡ out.old ++ bound_at self.now is_chosen branches.now) }
        ensures err { OnErr result (AddsFront out.old out.new (bound_at self.now is_chosen branches.now)) }
    {
        if self.is_near() {
            let t = self.later();
            self.give_bound(alloc, out, t, is_chosen, branches)
        } else {
            Ok(())
        }
    }
}
