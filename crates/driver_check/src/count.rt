//! Counting the drivers of signals.
ghost use Rattle.std.specs.Prelude.{◌≡◌};
ghost use Rattle.std.specs.List.{fold, position_from};
ghost use Rattle.driver_check.specs.Counts as spec;

use flat_design::Process;

/// How many processes assign a signal.
#[derive(Clone, Copy)]
pub enum Drivers {
    Zero,
    One,
    Several,
}

fn first(count: Drivers) -> Drivers
    ensures { result ≡ spec.first count }
{
    match count {
        Drivers::Zero => Drivers::One,
        Drivers::One => Drivers::One,
        Drivers::Several => Drivers::Several,
    }
}

fn second(count: Drivers) -> Drivers
    ensures { result ≡ spec.second count }
{
    match count {
        Drivers::Zero => Drivers::Zero,
        Drivers::One => Drivers::Several,
        Drivers::Several => Drivers::Several,
    }
}

#[tactic(auto, using(crate::proofs::Counted::changed_nowhere))]
fn count_second_of(signal: u32, counts: &mut [Drivers])
    ensures { counts.new ≡ spec.changed spec.second counts.old signal }
{
    let signal = signal as usize;
    if signal < counts.len() {
        counts[signal] = second(counts[signal]);
    }
}

#[tactic(auto, using(crate::proofs::Counted::changed_nowhere))]
fn count_first_of(signal: u32, counts: &mut [Drivers])
    ensures { counts.new ≡ spec.changed spec.first counts.old signal }
{
    let signal = signal as usize;
    if signal < counts.len() {
        counts[signal] = first(counts[signal]);
    }
}

/// Of the signals that a process assigns those that another one assigns too.
fn count_second(signals: &[u32], counts: &mut [Drivers])
    ensures { counts.new ≡ fold (spec.changed spec.second) counts.old signals.now }
{
    for signal in signals {
        count_second_of(*signal, counts);
    }
}

/// Of the signals that a process assigns those that no other one assigns.
fn count_first(signals: &[u32], counts: &mut [Drivers])
    ensures { counts.new ≡ fold (spec.changed spec.first) counts.old signals.now }
{
    for signal in signals {
        count_first_of(*signal, counts);
    }
}

/// Counts the processes that assign each signal, a process once for each signal.
pub fn count_drivers(processes: &[Process], counts: &mut [Drivers])
    ensures { counts.new ≡ fold spec.with_process counts.old processes.now }
{
    for process in processes {
        count_second(process.drivers.as_slice(), counts);
        count_first(process.drivers.as_slice(), counts);
    }
}

fn is_several(count: Drivers) -> bool
    ensures { result ≡ spec.is_several count }
{
    matches!(count, Drivers::Several)
}

/// The first signal that several processes assign.
pub fn first_several(counts: &[Drivers]) -> Option<usize>
    ensures { result ≡ position_from spec.is_several 0 counts.now }
{
    for (signal, count) in counts.iter().enumerate() {
        if is_several(*count) {
            return Some(signal);
        }
    }
    None
}
