ghost use Rattle.std.specs.Prelude.{◌≡◌, ℕ, ◌≤◌, ◌+◌, length, drop, not, false, true, ◌&&◌, ◌++◌, nat_eq, OnOk};
ghost use Rattle.std.specs.Char.{is_ascii};
ghost use Rattle.std.specs.List.{list_all};
ghost use Rattle.std.specs.String.{string_bytes};
ghost use Rattle.ams_lexer.specs.Runs.{begins};
ghost use Rattle.ams_lexer.specs.Strings.{ends, body_length, front_length, is_comment_byte, bit_width, is_bit_letter, is_bit_digit, undoubled, binary, bit_text};

use crate::runs::digit_value;
use std::alloc::AllocError;

/// Whether a string's content is over before these bytes.
fn ends(bytes: &[u8]) -> bool
    ensures { result ≡ ends bytes.now }
{
    match bytes {
        [] | [b'\n', ..] => true,
        [b'"', b'"', ..] => false,
        [b'"', ..] => true,
        [_, ..] => false,
    }
}

fn is_over(second: bool, bytes: &[u8]) -> bool
    ensures { result ≡ (not second && ends bytes.now) }
{
    !second && ends(bytes)
}

/// Whether the mark behind this byte is the second of a pair.
fn opens_pair(second: bool, byte: u8) -> bool
    ensures { result ≡ (not second && nat_eq byte 34) }
{
    !second && byte == b'"'
}

/// How many bytes a string's content takes, behind its opening mark.
pub fn body_length(bytes: &[u8]) -> usize
    ensures length { result ≡ body_length false bytes.now }
    ensures bound { result ≤ length bytes.now }
{
    let mut second = false;
    for (i, byte) in bytes.iter().enumerate() {
        if is_over(second, &bytes[i..]) {
            return i;
        }
        second = opens_pair(second, *byte);
    }
    bytes.len()
}

/// How many bytes are below 128 from the front on.
pub fn ascii_length(bytes: &[u8]) -> usize
    ensures length { result ≡ front_length is_ascii bytes.now }
    ensures bound { result ≤ length bytes.now }
{
    for (i, byte) in bytes.iter().enumerate() {
        if *byte >= 128 {
            return i;
        }
    }
    bytes.len()
}

/// How many bytes a comment takes, behind its two hyphens.
pub fn comment_length(bytes: &[u8]) -> usize
    ensures length { result ≡ front_length is_comment_byte bytes.now }
    ensures bound { result ≤ length bytes.now }
{
    for (i, byte) in bytes.iter().enumerate() {
        if *byte >= 128 || *byte == b'\n' {
            return i;
        }
    }
    bytes.len()
}

pub fn bit_width(letter: u8) -> u32
    ensures width { result ≡ bit_width letter }
    ensures small { result ≤ 4 }
{
    match letter {
        b'B' | b'b' => 1,
        b'O' | b'o' => 3,
        _ => 4,
    }
}

pub fn is_bit_letter(byte: u8) -> bool
    ensures { result ≡ is_bit_letter byte }
{
    matches!(byte, b'B' | b'b' | b'O' | b'o' | b'X' | b'x')
}

fn is_bit_digit(width: u32, byte: u8) -> bool
    requires { width ≤ 4 }
    ensures { result ≡ is_bit_digit width byte }
{
    byte == b'_' || digit_value(byte) < 1 << width
}

/// Whether all bytes are digits of so many bits or underscores.
pub fn are_bit_digits(width: u32, bytes: &[u8]) -> bool
    requires { width ≤ 4 }
    ensures { result ≡ list_all (is_bit_digit width) bytes.now }
{
    bytes.iter().all(|byte| is_bit_digit(width, *byte))
}

/// Adds a string's content, each pair of marks as one.
pub fn push_content(out: &mut String, body: &[u8]) -> Result<(), AllocError>
    requires { list_all is_ascii body.now ≡ true }
    ensures { OnOk result (string_bytes out.new ≡ string_bytes out.old ++ undoubled false body.now) }
{
    let mut skip = false;
    for byte in body {
        if !skip {
            out.push(char::from(*byte))?;
        }
        skip = opens_pair(skip, *byte);
    }
    Ok(())
}

/// Adds the lowest bits of a number, the highest of them first.
fn push_binary(out: &mut String, width: u32, value: u8) -> Result<(), AllocError>
    requires { width ≤ 4 }
    ensures { OnOk result (string_bytes out.new ≡ string_bytes out.old ++ binary width value) }
{
    if width == 0 {
        return Ok(());
    }
    let bit = (value >> (width - 1)) % 2;
    out.push(char::from(b'0' + bit))?;
    push_binary(out, width - 1, value)
}

/// Adds the bits that the digits stand for, each of this width.
pub fn push_bits(out: &mut String, width: u32, digits: &[u8]) -> Result<(), AllocError>
    requires { width ≤ 4 }
    ensures { OnOk result (string_bytes out.new ≡ string_bytes out.old ++ bit_text width digits.now) }
{
    for byte in digits {
        if *byte != b'_' {
            push_binary(out, width, digit_value(*byte))?;
        }
    }
    Ok(())
}
