ghost use Rattle.std.specs.Prelude.{◌≡◌};
ghost use Rattle.std.specs.List.{list_all};
ghost use Rattle.std.specs.Char.{is_ascii_digit};
ghost use Rattle.word_rules.specs.Words.{number_of, are_digits, is_allowed, is_identifier, is_number_in, is_schedule, is_step, goes_on, starts_alphanumeric};

use crate::mode::mode_named;

fn all_digits(text: &[u8]) -> bool
    ensures { result ≡ list_all is_ascii_digit text.now }
{
    text.iter().all(|c| c.is_ascii_digit())
}

fn are_digits(text: &[u8]) -> bool
    ensures { result ≡ are_digits text.now }
{
    1 <= text.len() && text.len() <= 16 && all_digits(text)
}

/// A number of 1 to 16 decimal digits without a sign.
#[tactic(auto, unfolding(crate::specs::Words::number_of))]
pub fn number_of(text: &str) -> Option<u64>
    ensures { result ≡ number_of text.now }
{
    if are_digits(text.as_bytes()) {
        text.parse::<u64>().ok()
    } else {
        None
    }
}

fn is_number_in(least: u64, most: u64, text: &str) -> bool
    ensures { result ≡ is_number_in least most text.now }
{
    match number_of(text) {
        Some(number) => least <= number && number <= most,
        None => false,
    }
}

fn starts_alphanumeric(text: &[u8]) -> bool
    ensures { result ≡ starts_alphanumeric text.now }
{
    match text {
        [first, ..] => first.is_ascii_alphanumeric(),
        [] => false,
    }
}

// Whether letters, digits and single underscores stand here, each underscore with a letter or digit behind it.
fn goes_on(text: &[u8]) -> bool
    ensures { result ≡ goes_on text.now }
{
    match text {
        [] => true,
        [b'_', rest @ ..] => starts_alphanumeric(rest) && goes_on(rest),
        [c, rest @ ..] => c.is_ascii_alphanumeric() && goes_on(rest),
    }
}

#[tactic(auto, unfolding(crate::specs::Words::is_identifier))]
fn is_identifier(text: &[u8]) -> bool
    ensures { result ≡ is_identifier text.now }
{
    match text {
        [] => false,
        [first, rest @ ..] => first.is_ascii_alphabetic() && goes_on(rest),
    }
}

fn all_steps(text: &[u8]) -> bool
    ensures { result ≡ list_all is_step text.now }
{
    text.iter().all(|c| *c == b'w' || *c == b'd')
}

fn is_schedule(text: &[u8]) -> bool
    ensures { result ≡ is_schedule text.now }
{
    1 <= text.len() && text.len() <= 4096 && all_steps(text)
}

/// Whether an option may have this value.
#[tactic(auto, unfolding(crate::specs::Words::is_allowed))]
pub fn is_allowed(name: &str, value: &str) -> bool
    ensures { result ≡ is_allowed name.now value.now }
{
    if name == "mode" {
        mode_named(value).is_some()
    } else if name == "top" {
        is_identifier(value.as_bytes())
    } else if name == "ahead" {
        is_number_in(0, 4096, value)
    } else if name == "xres" {
        is_number_in(1, 1_000_000_000, value)
    } else if name == "schedule" {
        is_schedule(value.as_bytes())
    } else if name == "size" {
        is_number_in(1, 15, value)
    } else if name == "h0" || name == "hmin" || name == "hmax" {
        is_number_in(1, 1_000_000_000_000, value)
    } else {
        is_number_in(1, 1_000_000_000_000_000, value)
    }
}
