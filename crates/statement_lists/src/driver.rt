//! What a driver is told beside the new transactions.
ghost use Rattle.std.specs.Prelude.{◌≡◌};
ghost use Rattle.cycle_meaning.specs.Statements.{delay_kind_of, magnitude, rejection};
ghost use Rattle.statement_lists.specs.Waves.{WaveformsRise};

use fix_core::Tick;
use flat_expr::DelayMechanism;
use step_data::Trans;
use waveform::DelayKind;

pub fn delay_kind(mechanism: &DelayMechanism) -> DelayKind
    ensures { result ≡ delay_kind_of mechanism.now }
{
    match mechanism {
        DelayMechanism::Transport => DelayKind::Transport,
        DelayMechanism::Inertial(_) => DelayKind::Inertial,
    }
}

fn magnitude(ticks: i64) -> u64
    ensures { result ≡ magnitude ticks }
{
    if ticks < 0 {
        return 0;
    }
    ticks as u64
}

/// The rejection limit in ticks: the one that is written, else the delay of the first element (IEEE 1076, 10.5.2).
pub fn rejection(now: Tick, limit: Option<i64>, new: &[Trans]) -> u64
    ensures { result ≡ rejection now limit new.now }
{
    match limit {
        Some(ticks) => magnitude(ticks),
        None => match new {
            [first, ..] => first.at.get().saturating_sub(now.get()),
            [] => 0,
        },
    }
}

/// A driver takes what a waveform gives. It is proved, and does nothing when it runs.
pub fn waveforms_rise()
    ensures { WaveformsRise }
{}
