//! The lines of a header, one by one.
ghost use Rattle.std.specs.Prelude.{◌≡◌, ◌<◌, ◌++◌, ◌∷◌, codes, OnOk, OnErr};
ghost use Rattle.flat_design.specs.Order.{unknown_at, unknown_count};
ghost use Rattle.trace_text.specs.Trace.{line_of, option_fields, unknown_line, signal_line, threshold_line};
ghost use Rattle.commit_trace.specs.Added.{IsFront};

use crate::append::push_word_line;
use crate::head::{push_options, push_threshold, push_unknown};
use flat_design::{Flat, Signal, Threshold};
use std::alloc::AllocError;
use step_data::Options;

/// Adds the first line of a header: the version, the name of the top entity and the options.
pub fn options_line(top: &str, options: &Options, out: &mut Vec<u8>) -> Result<(), AllocError>
    ensures ok { OnOk result (out.new.items ≡ out.old.items ++ line_of (codes "A") (codes "2" ∷ top.now ∷ option_fields options.now)) }
    ensures err { OnErr result (out.new.items ≡ out.old.items) }
{
    let before = out.len();
    match push_options(out, top, options) {
        Ok(()) => Ok(()),
        Err(fault) => {
            out.truncate(before);
            Err(fault)
        }
    }
}

/// Adds the line of the unknown of a number.
pub fn unknown_line(flat: &Flat, number: usize, out: &mut Vec<u8>) -> Result<(), AllocError>
    requires { number < unknown_count flat.now }
    ensures ok { OnOk result (out.new.items ≡ out.old.items ++ unknown_line flat.now number (unknown_at flat.now number)) }
    ensures err { OnErr result (out.new.items ≡ out.old.items) }
{
    let before = out.len();
    match push_unknown(out, flat, number as u64, flat.unknown_at(number)) {
        Ok(()) => Ok(()),
        Err(fault) => {
            out.truncate(before);
            Err(fault)
        }
    }
}

/// Adds the line of a signal of this number.
pub fn signal_line(number: u64, signal: &Signal, out: &mut Vec<u8>) -> Result<(), AllocError>
    ensures ok { OnOk result (out.new.items ≡ out.old.items ++ signal_line number signal.now) }
    ensures err { OnErr result (out.new.items ≡ out.old.items) }
{
    let before = out.len();
    match push_word_line(out, b'N', &[number], signal.path.as_slice()) {
        Ok(()) => Ok(()),
        Err(fault) => {
            out.truncate(before);
            Err(fault)
        }
    }
}

/// Adds the line of a threshold of this number.
pub fn threshold_line(
    number: u64,
    threshold: &Threshold,
    out: &mut Vec<u8>,
) -> Result<(), AllocError>
    ensures ok { OnOk result (out.new.items ≡ out.old.items ++ threshold_line number threshold.now) }
    ensures err { OnErr result (out.new.items ≡ out.old.items) }
{
    let before = out.len();
    match push_threshold(out, number, *threshold) {
        Ok(()) => Ok(()),
        Err(fault) => {
            out.truncate(before);
            Err(fault)
        }
    }
}
