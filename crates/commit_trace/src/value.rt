//! The text of a value.
ghost use Rattle.std.specs.Prelude.{◌≡◌, ◌/◌, ◌%◌, ◌^◌, ◌++◌, ◌∷◌, [], nat_eq, OnOk, OnErr};
ghost use Rattle.std.specs.List.{slice_get};
ghost use Rattle.trace_text.specs.Trace.{bit_text, bits_text, literal_in, value_text};
ghost use Rattle.commit_trace.specs.Added.{IsFront};

use crate::append::{push_fixed, push_whole, truth_word};
use ams_value::{MOST_ELEMENTS, Val};
use flat_design::Enumeration;
use std::alloc::AllocError;

pub fn bit_digit(bit: bool) -> u8
    ensures { result ∷ [] ≡ bit_text bit }
{
    if bit { b'1' } else { b'0' }
}

/// Whether the bit of this place is set.
pub fn bit_at(content: u64, place: u8) -> bool
    ensures { result ≡ nat_eq (content / 2 ^ place % 2) 1 }
{
    place < MOST_ELEMENTS && (content >> place) % 2 == 1
}

fn push_bits(out: &mut Vec<u8>, length: u8, content: u64) -> Result<(), AllocError>
    ensures ok { OnOk result (out.new.items ≡ out.old.items ++ bits_text length content) }
    ensures err { OnErr result (IsFront out.old.items out.new.items) }
{
    if length == 0 {
        return Ok(());
    }
    let place = length - 1;
    out.push(bit_digit(bit_at(content, place)))?;
    push_bits(out, place, content)
}

/// The literal of a position of an enumeration type, and none where there is none.
pub fn literal(enums: &[Enumeration], number: u16, position: u16) -> &[u8]
    ensures { result.now ≡ literal_in (slice_get enums.now number) position }
{
    match enums.get(usize::from(number)) {
        Some(enumeration) => match enumeration.literals.get(usize::from(position)) {
            Some(text) => text.as_slice(),
            None => &[],
        },
        None => &[],
    }
}

pub fn push_value(out: &mut Vec<u8>, value: Val, enums: &[Enumeration]) -> Result<(), AllocError>
    ensures ok { OnOk result (out.new.items ≡ out.old.items ++ value_text enums.now value) }
    ensures err { OnErr result (IsFront out.old.items out.new.items) }
{
    match value {
        Val::Bool(truth) => out.extend_from_slice(truth_word(truth)),
        Val::Bit(bit) => out.extend_from_slice(&[bit_digit(bit)]),
        Val::Int(number) => push_whole(out, i64::from(number)),
        Val::Real(number) => push_fixed(out, number),
        Val::Time(ticks) => push_whole(out, ticks),
        Val::Enum(number, position) => out.extend_from_slice(literal(enums, number, position)),
        Val::Bits(length, content) => push_bits(out, length, content),
    }
}
