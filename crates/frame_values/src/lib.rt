//! The frame that equations read, from the values of signals and thresholds.
#![tactic(auto)]

ghost use Rattle.std.specs.Prelude.{◌≡◌, ◌<◌, length, map, slice_get, Some};
ghost use Rattle.frame_values.specs.Frames.{value_by, FramesAreFilled};

use ams_value::Val;
use flat_expr::SignalName;
use step_data::{Frame, ThresholdState};

/// The value of a signal, a threshold or DOMAIN; FALSE at a number that none has.
fn value_by(signals: &[Val], thresholds: &[ThresholdState], timed: bool, name: SignalName) -> Val
    ensures { result ≡ value_by signals.now thresholds.now timed name }
{
    match name {
        SignalName::Signal(i) => match signals.get(i as usize) {
            Some(value) => *value,
            None => Val::Bool(false),
        },
        SignalName::Threshold(k) => match thresholds.get(k as usize) {
            Some(threshold) => Val::Bool(threshold.on),
            None => Val::Bool(false),
        },
        SignalName::Domain => {
            if timed {
                Val::Enum(0, 1)
            } else {
                Val::Enum(0, 0)
            }
        }
    }
}

fn name_at(names: &[SignalName], k: usize) -> SignalName
    requires { k < length names.now }
    ensures { slice_get names.now k ≡ Some result }
{
    names[k]
}

/// Writes the value of each name of a frame, without memory.
pub fn fill_frame(
    names: &[SignalName],
    signals: &[Val],
    thresholds: &[ThresholdState],
    timed: bool,
    out: &mut Frame,
)
    requires { length out.old ≡ length names.now }
    ensures { out.new ≡ map (value_by signals.now thresholds.now timed) names.now }
{
    for k in 0..names.len() {
        let name = name_at(names, k);
        out.set(k, value_by(signals, thresholds, timed, name));
    }
}

/// A frame that is filled by the names of a design's frame is that of the state between cycles. It is proved, and does nothing
/// when it runs.
pub fn frames_are_filled()
    ensures { FramesAreFilled }
{}
