//! The text of a value, in an array.
ghost use Rattle.std.specs.Prelude.{◌≡◌, ◌+◌, ◌≤◌, ◌++◌, length, take, drop};
ghost use Rattle.fix_core.specs.Text.{text_of};
ghost use Rattle.trace_text.specs.Trace.{whole_text, bits_text, value_text};
ghost use Rattle.commit_trace.specs.Room.{HasRoom};

use crate::append::{NUMBER_ROOM, truth_word};
use crate::value::{bit_at, bit_digit, literal};
use ams_value::Val;
use fix_core::Fix;
use flat_design::Enumeration;
use itoa::Buffer;

/// The greatest length of the text of a value, in bytes.
pub const VALUE_ROOM: usize = 64;

fn put_word(out: &mut [u8; VALUE_ROOM], word: &[u8]) -> usize
    requires { length word.now ≤ VALUE_ROOM }
    ensures length { result ≡ length word.now }
    ensures text { out.new ≡ word.now ++ drop result out.old }
{
    out[..word.len()].copy_from_slice(word);
    word.len()
}

fn put_whole(out: &mut [u8; VALUE_ROOM], number: i64) -> usize
    ensures length { result ≡ length (whole_text number) }
    ensures text { out.new ≡ whole_text number ++ drop result out.old }
{
    let mut buffer = Buffer::new();
    put_word(out, buffer.format(number).as_bytes())
}

fn put_fixed(out: &mut [u8; VALUE_ROOM], number: Fix) -> usize
    ensures length { result ≡ length (text_of number) }
    ensures text { out.new ≡ text_of number ++ drop result out.old }
{
    let mut text = [0; NUMBER_ROOM];
    let len = number.to_text(&mut text);
    put_word(out, &text[..len])
}

/// Writes bits from a place on, and answers the place after them.
fn put_bits(out: &mut [u8; VALUE_ROOM], at: usize, length: u8, content: u64) -> usize
    requires { at + length ≤ VALUE_ROOM }
    ensures place { result ≡ at + length }
    ensures text { out.new ≡ take at out.old ++ (bits_text length content ++ drop result out.old) }
{
    if length == 0 {
        return at;
    }
    let place = length - 1;
    out[at] = bit_digit(bit_at(content, place));
    put_bits(out, at + 1, place, content)
}

/// Writes the text of a value into the front of `out`, and answers its length. The enumerations are those of the value's
/// design.
pub fn value_text(value: Val, enums: &[Enumeration], out: &mut [u8; VALUE_ROOM]) -> usize
    requires { HasRoom enums.now value }
    ensures length { result ≡ length (value_text enums.now value) }
    ensures text { out.new ≡ value_text enums.now value ++ drop result out.old }
{
    match value {
        Val::Bool(truth) => put_word(out, truth_word(truth)),
        Val::Bit(bit) => put_word(out, &[bit_digit(bit)]),
        Val::Int(number) => put_whole(out, i64::from(number)),
        Val::Real(number) => put_fixed(out, number),
        Val::Time(ticks) => put_whole(out, ticks),
        Val::Enum(number, position) => put_word(out, literal(enums, number, position)),
        Val::Bits(length, content) => put_bits(out, 0, length, content),
    }
}
