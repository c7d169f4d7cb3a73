//! Which signals of a design are driven.
#![tactic(auto)]

ghost use Rattle.std.specs.Prelude.{◌≡◌, ◌<◌, ◌||◌, ◌++◌, ◌∷◌, [], if◌then◌else◌, ℕ, false, nat_eq, length, filter, slice_index_or, IfOk, OnOk};
ghost use Rattle.std.specs.List.{All, list_any, range_with_len};
ghost use Rattle.cycle_meaning.specs.World.{drives};
ghost use Rattle.driven_signals.specs.Driven.{flag, DrivenAreOrdered};

use flat_design::Process;
use std::alloc::{AllocError, Global};

/// Marks the signals of these numbers.
pub fn mark(flags: &mut Vec<bool>, drivers: &[u32])
    requires { All (λ i. i < length flags.old.items) drivers.now }
    ensures count { length flags.new.items ≡ length flags.old.items }
    ensures marks { (i : ℕ) → i < length flags.old.items → slice_index_or flags.new.items i false ≡ (slice_index_or flags.old.items i false || list_any (nat_eq i) drivers.now) }
{
    for k in 0..drivers.len() {
        let i = drivers[k];
        flags[i as usize] = true;
    }
}

/// Marks the signals that these processes drive.
pub fn mark_all(flags: &mut Vec<bool>, processes: &[Process])
    requires { All (λ p. All (λ i. i < length flags.old.items) p.drivers) processes.now }
    ensures count { length flags.new.items ≡ length flags.old.items }
    ensures marks { (i : ℕ) → i < length flags.old.items → slice_index_or flags.new.items i false ≡ (slice_index_or flags.old.items i false || list_any (drives i) processes.now) }
{
    for process in processes {
        mark(flags, process.drivers.as_slice());
    }
}

fn flag_at(flags: &[bool], i: usize) -> bool
    requires { i < length flags.now }
    ensures { result ≡ flag flags.now i }
{
    flags[i]
}

fn push_if(numbers: &mut Vec<u32>, wanted: bool, i: u32) -> Result<(), AllocError>
    ensures { OnOk result (numbers.new.items ≡ (if wanted then numbers.old.items ++ i ∷ [] else numbers.old.items)) }
{
    if wanted {
        numbers.push(i)?;
    }
    Ok(())
}

/// The numbers of the marked signals, in order.
pub fn marked(alloc: Global, flags: &[bool]) -> Result<Vec<u32>, AllocError>
    requires { length flags.now < 4294967296 }
    ensures { IfOk result (λ numbers. numbers.items ≡ filter (flag flags.now) (range_with_len 0 (length flags.now))) }
{
    let mut numbers = Vec::new(alloc);
    for i in 0..flags.len() {
        let wanted = flag_at(flags, i);
        push_if(&mut numbers, wanted, i as u32)?;
    }
    Ok(numbers)
}

/// The driven signals of a design are in order, and each is a signal of it. It is proved, and does nothing when it runs.
pub fn driven_are_ordered()
    ensures { DrivenAreOrdered }
{}
