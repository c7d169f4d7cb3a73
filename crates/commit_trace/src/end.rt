//! The last line of a trace.
ghost use Rattle.std.specs.Prelude.{◌≡◌, ◌++◌, [], ◌∷◌, decimal, codes, OnOk, OnErr};
ghost use Rattle.trace_text.specs.Trace.{line_of, detail_field, end_line};
ghost use Rattle.commit_trace.specs.Added.{IsFront};

use crate::append::push_number_line;
use std::alloc::AllocError;
use step_data::{End, Refusal};

fn push_refusal(out: &mut Vec<u8>, t: u64, refusal: Refusal) -> Result<(), AllocError>
    ensures ok { OnOk result (out.new.items ≡ out.old.items ++ line_of (codes "F") (decimal t ∷ decimal refusal.code ∷ detail_field refusal.detail)) }
    ensures err { OnErr result (IsFront out.old.items out.new.items) }
{
    let code = u64::from(refusal.code);
    match refusal.detail {
        Some(detail) => push_number_line(out, b'F', &[t, code, u64::from(detail)]),
        None => push_number_line(out, b'F', &[t, code]),
    }
}

fn push_end(out: &mut Vec<u8>, end: End) -> Result<(), AllocError>
    ensures ok { OnOk result (out.new.items ≡ out.old.items ++ end_line end) }
    ensures err { OnErr result (IsFront out.old.items out.new.items) }
{
    match end {
        End::Reached(t) => push_number_line(out, b'E', &[t.get()]),
        End::Refused { t, refusal } => push_refusal(out, t.get(), refusal),
    }
}

/// Adds the line of the end: the stop time was reached, or the refusal with its detail.
pub fn last(end: &End, out: &mut Vec<u8>) -> Result<(), AllocError>
    ensures ok { OnOk result (out.new.items ≡ out.old.items ++ end_line end.now) }
    ensures err { OnErr result (out.new.items ≡ out.old.items) }
{
    let before = out.len();
    match push_end(out, *end) {
        Ok(()) => Ok(()),
        Err(fault) => {
            out.truncate(before);
            Err(fault)
        }
    }
}
