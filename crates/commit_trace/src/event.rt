//! The lines of events.
ghost use Rattle.std.specs.Prelude.{◌≡◌, ◌++◌, [], ◌∷◌, map, flat_map, decimal, codes, OnOk, OnErr};
ghost use Rattle.fix_core.specs.Text.{text_of};
ghost use Rattle.trace_text.specs.Trace.{event_line, line_of, severity_text, element_fields, truth_text, value_text};
ghost use Rattle.commit_trace.specs.Added.{fields_text, IsFront};

use crate::append::{
    push_head, push_line_feed, push_number_line, push_numbers, push_real, push_reals, push_word,
    push_word_line, truth_word,
};
use crate::value::{bit_digit, push_value};
use ams_value::Val;
use fix_core::Fix;
use flat_design::Enumeration;
use std::alloc::AllocError;
use step_data::{Element, Event};

fn push_solved(out: &mut Vec<u8>, t: u64, n: u32, x: &[Fix]) -> Result<(), AllocError>
    ensures ok { OnOk result (out.new.items ≡ out.old.items ++ line_of (codes "P") (decimal t ∷ decimal n ∷ map text_of x.now)) }
    ensures err { OnErr result (IsFront out.old.items out.new.items) }
{
    if x.is_empty() {
        return push_number_line(out, b'P', &[t, u64::from(n)]);
    }
    push_head(out, b'P', &[t, u64::from(n)])?;
    push_reals(out, x)?;
    push_line_feed(out)
}

fn push_crossing(out: &mut Vec<u8>, t: u64, n: u32, k: u32, on: bool) -> Result<(), AllocError>
    ensures ok { OnOk result (out.new.items ≡ out.old.items ++ line_of (codes "X") (decimal t ∷ decimal n ∷ decimal k ∷ truth_text on ∷ [])) }
    ensures err { OnErr result (IsFront out.old.items out.new.items) }
{
    push_word_line(out, b'X', &[t, u64::from(n), u64::from(k)], truth_word(on))
}

/// The last field, and the end of the line.
fn push_last(out: &mut Vec<u8>, value: Val, enums: &[Enumeration]) -> Result<(), AllocError>
    ensures ok { OnOk result (out.new.items ≡ out.old.items ++ fields_text (value_text enums.now value ∷ []) ++ codes "\n") }
    ensures err { OnErr result (IsFront out.old.items out.new.items) }
{
    if let Val::Bit(bit) = value {
        return out.extend_from_slice(&[b' ', bit_digit(bit), b'\n']);
    }
    out.extend_from_slice(b" ")?;
    push_value(out, value, enums)?;
    push_line_feed(out)
}

fn push_signal(
    out: &mut Vec<u8>,
    t: u64,
    n: u32,
    i: u32,
    value: Val,
    enums: &[Enumeration],
) -> Result<(), AllocError>
    ensures ok { OnOk result (out.new.items ≡ out.old.items ++ line_of (codes "S") (decimal t ∷ decimal n ∷ decimal i ∷ value_text enums.now value ∷ [])) }
    ensures err { OnErr result (IsFront out.old.items out.new.items) }
{
    push_head(out, b'S', &[t, u64::from(n), u64::from(i)])?;
    push_last(out, value, enums)
}

fn push_element(out: &mut Vec<u8>, element: Element) -> Result<(), AllocError>
    ensures ok { OnOk result (out.new.items ≡ out.old.items ++ fields_text (element_fields element)) }
    ensures err { OnErr result (IsFront out.old.items out.new.items) }
{
    push_numbers(
        out,
        &[u64::from(element.selector), u64::from(element.quantity)],
    )?;
    push_real(out, element.value)
}

fn push_elements(out: &mut Vec<u8>, elements: &[Element]) -> Result<(), AllocError>
    ensures ok { OnOk result (out.new.items ≡ out.old.items ++ fields_text (flat_map element_fields elements.now)) }
    ensures err { OnErr result (IsFront out.old.items out.new.items) }
{
    for element in elements {
        push_element(out, *element)?;
    }
    Ok(())
}

fn push_break(out: &mut Vec<u8>, t: u64, n: u32, elements: &[Element]) -> Result<(), AllocError>
    ensures ok { OnOk result (out.new.items ≡ out.old.items ++ line_of (codes "B") (decimal t ∷ decimal n ∷ flat_map element_fields elements.now)) }
    ensures err { OnErr result (IsFront out.old.items out.new.items) }
{
    push_head(out, b'B', &[t, u64::from(n)])?;
    push_elements(out, elements)?;
    push_line_feed(out)
}

fn severity_word(severity: u8) -> &'static [u8]
    ensures { result.now ≡ severity_text severity }
{
    match severity {
        0 => b"note",
        1 => b"warning",
        2 => b"error",
        _ => b"failure",
    }
}

fn push_report(
    out: &mut Vec<u8>,
    t: u64,
    n: u32,
    severity: u8,
    text: &[u8],
) -> Result<(), AllocError>
    ensures ok { OnOk result (out.new.items ≡ out.old.items ++ line_of (codes "R") (decimal t ∷ decimal n ∷ severity_text severity ∷ text.now ∷ [])) }
    ensures err { OnErr result (IsFront out.old.items out.new.items) }
{
    push_head(out, b'R', &[t, u64::from(n)])?;
    push_word(out, severity_word(severity))?;
    push_word(out, text)?;
    push_line_feed(out)
}

fn push_event(out: &mut Vec<u8>, event: &Event, enums: &[Enumeration]) -> Result<(), AllocError>
    ensures ok { OnOk result (out.new.items ≡ out.old.items ++ event_line enums.now event.now) }
    ensures err { OnErr result (IsFront out.old.items out.new.items) }
{
    match event {
        Event::Solved { t, n, x } => push_solved(out, t.get(), *n, x.as_slice()),
        Event::Domain { t, n } => push_number_line(out, b'D', &[t.get(), u64::from(*n)]),
        Event::Cross { t, n, k, on } => push_crossing(out, t.get(), *n, *k, *on),
        Event::Signal { t, n, i, value } => push_signal(out, t.get(), *n, *i, *value, enums),
        Event::Broke { t, n, list } => push_break(out, t.get(), *n, list.as_slice()),
        Event::Report {
            t,
            n,
            severity,
            text,
        } => push_report(out, t.get(), *n, *severity, text.as_slice()),
        Event::Branch { t, n, k, b } => push_number_line(
            out,
            b'C',
            &[t.get(), u64::from(*n), u64::from(*k), u64::from(*b)],
        ),
    }
}

/// Adds the line of an event. The enumerations are those of the event's design.
pub fn line(event: &Event, enums: &[Enumeration], out: &mut Vec<u8>) -> Result<(), AllocError>
    ensures ok { OnOk result (out.new.items ≡ out.old.items ++ event_line enums.now event.now) }
    ensures err { OnErr result (out.new.items ≡ out.old.items) }
{
    let before = out.len();
    match push_event(out, event, enums) {
        Ok(()) => Ok(()),
        Err(fault) => {
            out.truncate(before);
            Err(fault)
        }
    }
}
