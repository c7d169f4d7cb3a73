//! The header of a trace: the options, and the names of unknowns, signals and thresholds.
ghost use Rattle.std.specs.Prelude.{◌≡◌, ◌++◌, [], ◌∷◌, map, decimal, codes, OnOk, OnErr};
ghost use Rattle.std.specs.List.{slice_get};
ghost use Rattle.fix_core.specs.Text.{text_of};
ghost use Rattle.flat_design.specs.Order.{unknowns, unknown_name, quantity_path, path_of_node, dot_path};
ghost use Rattle.trace_text.specs.Trace.{line_of, option_fields, numbered, unknown_line, signal_line, threshold_line, header};
ghost use Rattle.commit_trace.specs.Added.{fields_text, IsFront};

use crate::append::{
    push_head, push_line_feed, push_numbers, push_real, push_word, push_word_line,
};
use flat_design::{Flat, Signal, Threshold, numbers_find_unknowns};
use flat_expr::Unknown;
use std::alloc::AllocError;
use step_data::Options;

/// The letter of the first line, and the version of the format.
const FIRST_FIELDS: &[u8] = b"A 2";

pub fn push_options(out: &mut Vec<u8>, top: &str, options: &Options) -> Result<(), AllocError>
    ensures ok { OnOk result (out.new.items ≡ out.old.items ++ line_of (codes "A") (codes "2" ∷ top.now ∷ option_fields options.now)) }
    ensures err { OnErr result (IsFront out.old.items out.new.items) }
{
    out.extend_from_slice(FIRST_FIELDS)?;
    push_word(out, top.as_bytes())?;
    push_numbers(
        out,
        &[
            options.stop.get(),
            options.h0,
            options.hmin,
            options.hmax,
            options.tol,
            options.ltol,
            options.xres,
        ],
    )?;
    push_line_feed(out)
}

fn quantity_path(flat: &Flat, number: u32) -> &[u8]
    ensures { result.now ≡ quantity_path flat.now number }
{
    match flat.quantities().get(number as usize) {
        Some(quantity) => quantity.path.as_slice(),
        None => &[],
    }
}

fn node_path(flat: &Flat, number: u32) -> &[u8]
    ensures { result.now ≡ path_of_node (slice_get flat.now.nodes number) }
{
    match flat.nodes().get(number as usize) {
        Some(node) => node.path.as_slice(),
        None => &[],
    }
}

fn dot_path(flat: &Flat, number: u32) -> &[u8]
    ensures { result.now ≡ dot_path flat.now (slice_get flat.now.dots number) }
{
    match flat.dots().get(number as usize) {
        Some(quantity) => quantity_path(flat, *quantity),
        None => &[],
    }
}

/// The line of an unknown whose name is a path with an attribute behind it.
fn push_name_line(
    out: &mut Vec<u8>,
    number: u64,
    path: &[u8],
    attribute: &[u8],
) -> Result<(), AllocError>
    ensures ok { OnOk result (out.new.items ≡ out.old.items ++ line_of (codes "U") (decimal number ∷ (path.now ++ attribute.now) ∷ [])) }
    ensures err { OnErr result (IsFront out.old.items out.new.items) }
{
    push_head(out, b'U', &[number])?;
    push_word(out, path)?;
    out.extend_from_slice(attribute)?;
    push_line_feed(out)
}

pub fn push_unknown(
    out: &mut Vec<u8>,
    flat: &Flat,
    number: u64,
    unknown: Unknown,
) -> Result<(), AllocError>
    ensures ok { OnOk result (out.new.items ≡ out.old.items ++ unknown_line flat.now number unknown) }
    ensures err { OnErr result (IsFront out.old.items out.new.items) }
{
    match unknown {
        Unknown::Quantity(i) => push_name_line(out, number, quantity_path(flat, i), b""),
        Unknown::Reference(i) => push_name_line(out, number, node_path(flat, i), b"'reference"),
        Unknown::Dot(k) => push_name_line(out, number, dot_path(flat, k), b"'dot"),
    }
}

fn push_unknowns(out: &mut Vec<u8>, flat: &Flat) -> Result<(), AllocError>
    ensures ok { OnOk result (out.new.items ≡ out.old.items ++ numbered (unknown_line flat.now) 0 (unknowns flat.now)) }
    ensures err { OnErr result (IsFront out.old.items out.new.items) }
{
    numbers_find_unknowns();
    for number in 0..flat.unknown_count() {
        push_unknown(out, flat, number as u64, flat.unknown_at(number))?;
    }
    Ok(())
}

fn push_signals(out: &mut Vec<u8>, signals: &[Signal]) -> Result<(), AllocError>
    ensures ok { OnOk result (out.new.items ≡ out.old.items ++ numbered signal_line 0 signals.now) }
    ensures err { OnErr result (IsFront out.old.items out.new.items) }
{
    for (number, signal) in signals.iter().enumerate() {
        push_word_line(out, b'N', &[number as u64], signal.path.as_slice())?;
    }
    Ok(())
}

pub fn push_threshold(
    out: &mut Vec<u8>,
    number: u64,
    threshold: Threshold,
) -> Result<(), AllocError>
    ensures ok { OnOk result (out.new.items ≡ out.old.items ++ threshold_line number threshold) }
    ensures err { OnErr result (IsFront out.old.items out.new.items) }
{
    push_head(out, b'V', &[number, u64::from(threshold.quantity)])?;
    push_real(out, threshold.level)?;
    push_line_feed(out)
}

fn push_thresholds(out: &mut Vec<u8>, thresholds: &[Threshold]) -> Result<(), AllocError>
    ensures ok { OnOk result (out.new.items ≡ out.old.items ++ numbered threshold_line 0 thresholds.now) }
    ensures err { OnErr result (IsFront out.old.items out.new.items) }
{
    for (number, threshold) in thresholds.iter().enumerate() {
        push_threshold(out, number as u64, *threshold)?;
    }
    Ok(())
}

#[tactic(auto, using(crate::proofs::TextLemmas::text_rules), unfolding(trace_text::specs::Trace::header))]
fn push_header(
    out: &mut Vec<u8>,
    flat: &Flat,
    top: &str,
    options: &Options,
) -> Result<(), AllocError>
    ensures ok { OnOk result (out.new.items ≡ out.old.items ++ header flat.now top.now options.now) }
    ensures err { OnErr result (IsFront out.old.items out.new.items) }
{
    push_options(out, top, options)?;
    push_unknowns(out, flat)?;
    push_signals(out, flat.signals())?;
    push_thresholds(out, flat.thresholds())
}

/// Adds the header: the version, the name of the top entity and the options, and a line for each unknown, signal and
/// threshold, by number.
pub fn header(
    flat: &Flat,
    top: &str,
    options: &Options,
    out: &mut Vec<u8>,
) -> Result<(), AllocError>
    ensures ok { OnOk result (out.new.items ≡ out.old.items ++ header flat.now top.now options.now) }
    ensures err { OnErr result (out.new.items ≡ out.old.items) }
{
    let before = out.len();
    match push_header(out, flat, top, options) {
        Ok(()) => Ok(()),
        Err(fault) => {
            out.truncate(before);
            Err(fault)
        }
    }
}
