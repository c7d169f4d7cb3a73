//! The parts of a line. Where no memory is found for one, some of its bytes may stand behind the output.
ghost use Rattle.std.specs.Prelude.{◌≡◌, ◌≤◌, ◌+◌, ◌*◌, ◌++◌, [], ◌∷◌, map, drop, length, decimal, codes, OnOk, OnErr};
ghost use Rattle.fix_core.specs.Text.{text_of};
ghost use Rattle.trace_text.specs.Trace.{whole_text, truth_text, line_of};
ghost use Rattle.commit_trace.specs.Added.{fields_text, IsFront};

use fix_core::Fix;
use itoa::{Buffer, write_digits};
use std::alloc::AllocError;

/// Room for the text of a number with twelve decimals, in bytes.
pub const NUMBER_ROOM: usize = 27;

/// Room for a letter, four numbers of at most twenty digits with a space before each, and a line feed, in bytes.
const LINE_ROOM: usize = 86;

pub fn truth_word(truth: bool) -> &'static [u8]
    ensures { result.now ≡ truth_text truth }
{
    if truth { b"true" } else { b"false" }
}

fn push_decimal(out: &mut Vec<u8>, number: u64) -> Result<(), AllocError>
    ensures ok { OnOk result (out.new.items ≡ out.old.items ++ decimal number) }
    ensures err { OnErr result (IsFront out.old.items out.new.items) }
{
    let mut buffer = Buffer::new();
    out.extend_from_slice(buffer.format(number).as_bytes())
}

pub fn push_whole(out: &mut Vec<u8>, number: i64) -> Result<(), AllocError>
    ensures ok { OnOk result (out.new.items ≡ out.old.items ++ whole_text number) }
    ensures err { OnErr result (IsFront out.old.items out.new.items) }
{
    let mut buffer = Buffer::new();
    out.extend_from_slice(buffer.format(number).as_bytes())
}

pub fn push_fixed(out: &mut Vec<u8>, number: Fix) -> Result<(), AllocError>
    ensures ok { OnOk result (out.new.items ≡ out.old.items ++ text_of number) }
    ensures err { OnErr result (IsFront out.old.items out.new.items) }
{
    let mut text = [0; NUMBER_ROOM];
    let len = number.to_text(&mut text);
    out.extend_from_slice(&text[..len])
}

/// A field.
pub fn push_word(out: &mut Vec<u8>, word: &[u8]) -> Result<(), AllocError>
    ensures ok { OnOk result (out.new.items ≡ out.old.items ++ fields_text (word.now ∷ [])) }
    ensures err { OnErr result (IsFront out.old.items out.new.items) }
{
    out.extend_from_slice(b" ")?;
    out.extend_from_slice(word)
}

/// A field.
pub fn push_number(out: &mut Vec<u8>, number: u64) -> Result<(), AllocError>
    ensures ok { OnOk result (out.new.items ≡ out.old.items ++ fields_text (decimal number ∷ [])) }
    ensures err { OnErr result (IsFront out.old.items out.new.items) }
{
    out.extend_from_slice(b" ")?;
    push_decimal(out, number)
}

/// A field.
pub fn push_real(out: &mut Vec<u8>, number: Fix) -> Result<(), AllocError>
    ensures ok { OnOk result (out.new.items ≡ out.old.items ++ fields_text (text_of number ∷ [])) }
    ensures err { OnErr result (IsFront out.old.items out.new.items) }
{
    out.extend_from_slice(b" ")?;
    push_fixed(out, number)
}

/// A field for each.
pub fn push_numbers(out: &mut Vec<u8>, numbers: &[u64]) -> Result<(), AllocError>
    ensures ok { OnOk result (out.new.items ≡ out.old.items ++ fields_text (map decimal numbers.now)) }
    ensures err { OnErr result (IsFront out.old.items out.new.items) }
{
    for number in numbers {
        push_number(out, *number)?;
    }
    Ok(())
}

/// A field for each.
pub fn push_reals(out: &mut Vec<u8>, numbers: &[Fix]) -> Result<(), AllocError>
    ensures ok { OnOk result (out.new.items ≡ out.old.items ++ fields_text (map text_of numbers.now)) }
    ensures err { OnErr result (IsFront out.old.items out.new.items) }
{
    for number in numbers {
        push_real(out, *number)?;
    }
    Ok(())
}

/// Writes a field that ends at a place, and answers where it begins.
fn put_number(text: &mut [u8; LINE_ROOM], end: usize, number: u64) -> usize
    requires room { 21 ≤ end }
    requires within { end ≤ LINE_ROOM }
    ensures start { end ≤ result + 21 }
    ensures within { result ≤ end }
    ensures text { drop result text.new ≡ fields_text (decimal number ∷ []) ++ drop end text.old }
{
    let start = write_digits(number, text, end) - 1;
    text[start] = b' ';
    start
}

/// Writes fields of which the last one ends at a place, and answers where the first one begins.
fn put_numbers(text: &mut [u8; LINE_ROOM], end: usize, numbers: &[u64]) -> usize
    requires room { 21 * length numbers.now ≤ end }
    requires within { end ≤ LINE_ROOM }
    ensures start { end ≤ result + 21 * length numbers.now }
    ensures within { result ≤ end }
    ensures text { drop result text.new ≡ fields_text (map decimal numbers.now) ++ drop end text.old }
{
    let mut start = end;
    let mut left = numbers.len();
    while left > 0 {
        left -= 1;
        start = put_number(text, start, numbers[left]);
    }
    start
}

/// Writes the letter of a line and its first fields, of which the last one ends at a place, and answers where the letter is.
fn put_head(text: &mut [u8; LINE_ROOM], end: usize, letter: u8, numbers: &[u64]) -> usize
    requires few { length numbers.now ≤ 4 }
    requires room { 85 ≤ end }
    requires within { end ≤ LINE_ROOM }
    ensures within { result ≤ end }
    ensures text { drop result text.new ≡ letter ∷ fields_text (map decimal numbers.now) ++ drop end text.old }
{
    let start = put_numbers(text, end, numbers) - 1;
    text[start] = letter;
    start
}

/// The letter of a line, and its first fields.
pub fn push_head(out: &mut Vec<u8>, letter: u8, numbers: &[u64]) -> Result<(), AllocError>
    requires { length numbers.now ≤ 4 }
    ensures ok { OnOk result (out.new.items ≡ out.old.items ++ letter ∷ fields_text (map decimal numbers.now)) }
    ensures err { OnErr result (IsFront out.old.items out.new.items) }
{
    let mut text = [0; LINE_ROOM];
    let start = put_head(&mut text, LINE_ROOM, letter, numbers);
    out.extend_from_slice(&text[start..])
}

/// The end of a line.
pub fn push_line_feed(out: &mut Vec<u8>) -> Result<(), AllocError>
    ensures ok { OnOk result (out.new.items ≡ out.old.items ++ codes "\n") }
    ensures err { OnErr result (IsFront out.old.items out.new.items) }
{
    out.push(b'\n')?;
    Ok(())
}

/// A line of numbers alone.
pub fn push_number_line(out: &mut Vec<u8>, letter: u8, numbers: &[u64]) -> Result<(), AllocError>
    requires { length numbers.now ≤ 4 }
    ensures ok { OnOk result (out.new.items ≡ out.old.items ++ line_of (letter ∷ []) (map decimal numbers.now)) }
    ensures err { OnErr result (IsFront out.old.items out.new.items) }
{
    let mut text = [b'\n'; LINE_ROOM];
    let start = put_head(&mut text, LINE_ROOM - 1, letter, numbers);
    out.extend_from_slice(&text[start..])
}

/// A line whose first fields are numbers and whose last field is a word.
pub fn push_word_line(
    out: &mut Vec<u8>,
    letter: u8,
    numbers: &[u64],
    word: &[u8],
) -> Result<(), AllocError>
    requires { length numbers.now ≤ 4 }
    ensures ok { OnOk result (out.new.items ≡ out.old.items ++ line_of (letter ∷ []) (map decimal numbers.now ++ word.now ∷ [])) }
    ensures err { OnErr result (IsFront out.old.items out.new.items) }
{
    push_head(out, letter, numbers)?;
    push_word(out, word)?;
    push_line_feed(out)
}
