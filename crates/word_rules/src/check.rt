ghost use Rattle.std.specs.Prelude.{◌≡◌, ◌≤◌, ◌&&◌, None, Some, not, is_some, option_map, option_copied, MatchResult, IfErr, OnOk};
ghost use Rattle.std.specs.List.{list_any};
ghost use Rattle.word_rules.specs.declared.mode.Mode.{Mode};
ghost use Rattle.word_rules.specs.Words.{texts, names, is_option, is_whole, suits, mode_of, number_or, after_name, after_word, refusal, request_of, wants_threads, IsInRange};

use crate::mode::{Mode, is_run, mode_named};
use crate::parts::{is_named, is_option, split_word, value_of};
use crate::values::{is_allowed, number_of};

// The number that the words give an option, or its default.
fn number_or(default: u64, name: &str, words: &[String]) -> u64
    ensures { result ≡ number_or default name.now (texts words.now) }
{
    match value_of(name, words) {
        Some(value) => number_of(value).unwrap_or(default),
        None => default,
    }
}

fn mode_of(words: &[String]) -> Mode
    ensures { result ≡ mode_of (texts words.now) }
{
    match value_of("mode", words) {
        Some(value) => mode_named(value).unwrap_or(Mode::Run),
        None => Mode::Run,
    }
}

// Whether each option that is given is for the mode, and what the mode requires is given.
fn suits(mode: Mode, words: &[String]) -> bool
    ensures { result ≡ suits mode (texts words.now) }
{
    let top = value_of("top", words).is_some();
    let size = value_of("size", words).is_some();
    let schedule = value_of("schedule", words).is_some();
    match mode {
        Mode::Run | Mode::Lockstep => top && !size && !schedule,
        Mode::Replay => top && !size,
        Mode::Make => size && !top && !schedule,
    }
}

// Whether what is required is there, and the first step is between the least and the greatest.
#[tactic(auto, unfolding(crate::specs::Words::is_whole))]
fn is_whole(words: &[String]) -> bool
    ensures { result ≡ is_whole (texts words.now) }
{
    let h0 = number_or(1000, "h0", words);
    suits(mode_of(words), words)
        && value_of("stop", words).is_some()
        && number_or(1, "hmin", words) <= h0
        && h0 <= number_or(1_000_000, "hmax", words)
}

// Whether this is an option that none of these words names.
fn is_new_option(name: &str, before: &[String]) -> bool
    ensures { result ≡ (is_option name.now && not (list_any (names name.now) (texts before.now))) }
{
    is_option(name) && !is_named(name, before)
}

// Where a value leaves the reading.
fn after_value<'a>(name: &str, value: &str) -> Option<Option<&'a str>>
    ensures { option_map option_copied result ≡ after_name name.now (Some value.now) }
{
    if is_allowed(name, value) {
        Some(None)
    } else {
        None
    }
}

// Where a word leaves the reading: none where it is refused, else the option that waits for its value, where one does.
fn after_word<'a>(
    before: &[String],
    waiting: Option<&str>,
    word: &'a str,
) -> Option<Option<&'a str>>
    ensures { option_map option_copied result ≡ after_word (texts before.now) (option_copied waiting.entry) word.now }
{
    match waiting {
        Some(name) => after_value(name, word),
        None => {
            let (name, value) = split_word(word)?;
            if !is_new_option(name, before) {
                return None;
            }
            match value {
                Some(value) => after_value(name, value),
                None => Some(Some(name)),
            }
        }
    }
}

/// Tests the words. An `Err` has the number of the first refused word, from 1, or 0 where no word is refused and still
/// something is missing, an option isn't for the mode, or the first step isn't between the least and the greatest.
pub fn check_words(words: &[String]) -> Result<(), u32>
    ensures first { MatchResult result (λ _. refusal (texts words.now) ≡ None) (λ n. refusal (texts words.now) ≡ Some n) }
    ensures bound { IfErr result (λ n. n ≤ 25) }
    ensures ranges { OnOk result (IsInRange (request_of (texts words.now))) }
{
    let mut waiting = None;
    let mut at = 0;
    while at < words.len() {
        match after_word(&words[..at], waiting, words[at].as_str()) {
            Some(next) => waiting = next,
            None => return Err(at as u32 + 1),
        }
        at += 1;
    }
    if waiting.is_some() {
        return Err(at as u32);
    }
    if is_whole(words) { Ok(()) } else { Err(0) }
}

/// Whether the words are accepted and ask for the kernels on threads.
#[tactic(auto, unfolding(crate::specs::Words::wants_threads))]
pub fn wants_threads(words: &[String]) -> bool
    ensures { result ≡ wants_threads (texts words.now) }
{
    check_words(words).is_ok() && is_run(mode_of(words))
}
