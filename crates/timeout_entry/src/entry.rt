//! Timeouts are entered.
ghost use Rattle.std.specs.Prelude.{◌≡◌, ◌<◌, ◌^◌, false, length, if◌then◌else◌, slice_index_or, slice_set, None, OnOk};
ghost use Rattle.cycle_timeouts.specs.Entered.{entered};
ghost use Rattle.process_runs.specs.Called.{MarksAreCalled};
ghost use Rattle.timeout_entry.specs.Kept.{timeouts_kept};

use agenda::Agenda;
use fix_core::Tick;
use process_runs::KeptProcess;
use std::alloc::AllocError;

/// The timeout that is kept of the process with a number.
#[tactic(auto, using(crate::proofs::Entering::kept_at))]
fn timeout_at(kept: &[KeptProcess], number: usize) -> Option<Tick>
    requires { number < length kept.now }
    ensures { result ≡ slice_index_or (timeouts_kept kept.now) number None }
{
    kept[number].timeout()
}

/// Whether the process with a number ran.
fn flag_at(ran: &[bool], number: usize) -> bool
    requires { number < length ran.now }
    ensures { result ≡ slice_index_or ran.now number false }
{
    ran[number]
}

/// Enters the timeout of a process, if it ran.
fn enter(
    timeouts: &mut Agenda,
    number: u32,
    at: Option<Tick>,
    entering: bool,
) -> Result<(), AllocError>
    requires { number < length timeouts.old }
    ensures set { OnOk result (timeouts.new ≡ (if entering then slice_set timeouts.old number at else timeouts.old)) }
    ensures count { length timeouts.new ≡ length timeouts.old }
{
    if entering {
        return timeouts.set(number, at);
    }
    Ok(())
}

/// Enters the timeouts of the processes that ran (IEEE 1076, 10.2): the time of a process that waits without one is taken out. The times of
/// the others stay. Only those that were called are looked at: no other ran. Memory is taken where a time is entered.
pub fn enter_called(
    timeouts: &mut Agenda,
    kept: &[KeptProcess],
    ran: &[bool],
    called: &[u32],
) -> Result<(), AllocError>
    requires kept { length kept.now ≡ length timeouts.old }
    requires ran { length ran.now ≡ length timeouts.old }
    requires called { MarksAreCalled (length timeouts.old) called.now ran.now }
    ensures entered { OnOk result (timeouts.new ≡ entered timeouts.old (timeouts_kept kept.now) ran.now) }
    ensures count { length timeouts.new ≡ length timeouts.old }
{
    for number in called {
        let at = timeout_at(kept, *number as usize);
        let entering = flag_at(ran, *number as usize);
        enter(timeouts, *number, at, entering)?;
    }
    Ok(())
}

/// Enters the timeouts of all processes, as behind the first runs.
pub fn enter_all(timeouts: &mut Agenda, kept: &[KeptProcess]) -> Result<(), AllocError>
    requires kept { length kept.now ≡ length timeouts.old }
    requires few { length timeouts.old < 2 ^ 32 }
    ensures entered { OnOk result (timeouts.new ≡ timeouts_kept kept.now) }
    ensures count { length timeouts.new ≡ length timeouts.old }
{
    for number in 0..kept.len() {
        let at = timeout_at(kept, number);
        enter(timeouts, number as u32, at, true)?;
    }
    Ok(())
}
