//! The frame before the first cycle.
#![tactic(auto)]

ghost use Rattle.std.specs.Prelude.{◌≡◌, ◌<◌, length, slice_get, Some};
ghost use Rattle.flat_design.specs.Reads.{frame_of};
ghost use Rattle.cycle_meaning.specs.Cycles.{first_digital, frame, value_in};

use ams_value::Val;
use flat_design::Flat;
use flat_expr::SignalName;
use step_data::Frame;

/// The initial value of a signal, FALSE for a threshold, QUIESCENT_DOMAIN for DOMAIN.
#[tactic(auto, using(crate::proofs::First::signal_there, crate::proofs::First::signal_missing, crate::proofs::First::threshold_is_off))]
fn first_value(flat: &Flat, name: SignalName) -> Val
    ensures { result ≡ value_in (first_digital flat.now) name }
{
    match name {
        SignalName::Signal(i) => match flat.signals().get(i as usize) {
            Some(signal) => signal.initial,
            None => Val::Bool(false),
        },
        SignalName::Threshold(_) => Val::Bool(false),
        SignalName::Domain => Val::Enum(0, 0),
    }
}

fn name_at(names: &[SignalName], k: usize) -> SignalName
    requires { k < length names.now }
    ensures { slice_get names.now k ≡ Some result }
{
    names[k]
}

/// Writes the frame of a design before its first cycle, without memory.
pub fn fill_first_frame(flat: &Flat, out: &mut Frame)
    requires { length out.old ≡ length (frame_of flat.now) }
    ensures { out.new ≡ frame flat.now (first_digital flat.now) }
{
    let names = flat.frame();
    for k in 0..names.len() {
        let name = name_at(names, k);
        out.set(k, first_value(flat, name));
    }
}
