ghost use Rattle.std.specs.Prelude.{◌≡◌, ◌≤◌, length};
ghost use Rattle.std.specs.Char.{digit_value};
ghost use Rattle.ams_lexer.specs.Runs.{goes_on, run_length, takes};

/// What a run is made of.
#[derive(Clone, Copy, Debug, PartialEq, Eq)]
pub enum RunClass {
    /// Letters and digits.
    Word,
    /// Digits of this base, letters among them in either case.
    Digits(u8),
}

/// The value of a digit or a letter, from 0 for `0` to 35 for `Z` and `z`, and 36 for any other byte.
pub fn digit_value(byte: u8) -> u8
    ensures { result ≡ digit_value byte }
{
    match byte {
        b'0'..=b'9' => byte - b'0',
        b'A'..=b'Z' => byte - 55,
        b'a'..=b'z' => byte - 87,
        _ => 36,
    }
}

fn takes(class: RunClass, byte: u8) -> bool
    ensures { result ≡ takes class byte }
{
    match class {
        RunClass::Word => byte.is_ascii_alphanumeric(),
        RunClass::Digits(base) => digit_value(byte) < base,
    }
}

fn goes_on(class: RunClass, bytes: &[u8]) -> bool
    ensures { result ≡ goes_on (takes class) bytes.now }
{
    match bytes {
        [] => false,
        [byte] => takes(class, *byte),
        [byte, next, ..] => takes(class, *byte) || (*byte == b'_' && takes(class, *next)),
    }
}

/// How many bytes the run at the front takes, 0 where there is none.
pub fn run_length(class: RunClass, bytes: &[u8]) -> usize
    ensures length { result ≡ run_length (takes class) bytes.now }
    ensures bound { result ≤ length bytes.now }
{
    for i in 0..bytes.len() {
        if !goes_on(class, &bytes[i..]) {
            return i;
        }
    }
    bytes.len()
}
