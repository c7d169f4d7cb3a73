ghost use Rattle.std.specs.Prelude.{◌≡◌, None, IfOk, string_bytes, codes, map, true};
ghost use Rattle.std.specs.List.{list_all};
ghost use Rattle.clap.specs.Matches.{found_of, first_value};
ghost use Rattle.step_data.specs.Options.{IsAllowed};
ghost use Rattle.word_rules.specs.declared.mode.Mode.{Mode};
ghost use Rattle.word_rules.specs.Words.{texts, refusal, request_of, is_step, IsInRange};
ghost use Rattle.program_words.specs.Asked.{asked, letter_of, schedule_from, number_from, mode_from, top_from, options_from, request_from};

use crate::command::matches_of;
use crate::settings::Settings;
use clap::ArgMatches;
use fix_core::Tick;
use std::alloc::{AllocError, Global};
use step_data::Options;
use step_schedule::Step;
use word_rules::{Mode, mode_named, number_of};

// The number that an option is given, or its default.
fn number_or(default: u64, name: &str, matches: &ArgMatches) -> u64
    ensures { result ≡ number_from (first_value (found_of matches.now)) default name.now }
{
    match matches.get_str(name) {
        Some(value) => number_of(value).unwrap_or(default),
        None => default,
    }
}

fn mode_of(matches: &ArgMatches) -> Mode
    ensures { result ≡ mode_from (first_value (found_of matches.now)) }
{
    match matches.get_str("mode") {
        Some(value) => mode_named(value).unwrap_or(Mode::Run),
        None => Mode::Run,
    }
}

fn top_of(alloc: Global, mode: Mode, matches: &ArgMatches) -> Result<String, AllocError>
    ensures { IfOk result (λ top. string_bytes top ≡ top_from mode (first_value (found_of matches.now))) }
{
    match mode {
        Mode::Run | Mode::Lockstep | Mode::Replay => matches
            .get_str("top")
            .unwrap_or("")
            .to_ascii_lowercase(alloc),
        Mode::Make => "ladder".to_ascii_lowercase(alloc),
    }
}

fn options_of(matches: &ArgMatches) -> Options
    requires { IsInRange (request_from (first_value (found_of matches.now))) }
    ensures { result ≡ options_from (first_value (found_of matches.now)) }
{
    Options {
        stop: Tick::new(number_or(0, "stop", matches)).unwrap(),
        ahead: number_or(64, "ahead", matches) as u32,
        h0: number_or(1000, "h0", matches),
        hmin: number_or(1, "hmin", matches),
        hmax: number_or(1_000_000, "hmax", matches),
        tol: number_or(1_000_000, "tol", matches),
        ltol: number_or(1_000_000_000, "ltol", matches),
        xres: number_or(1, "xres", matches),
    }
}

// The step of a letter.
fn step_of(letter: u8) -> Step
    ensures { is_step letter ≡ true → letter_of result ≡ letter }
{
    if letter == b'w' { Step::W } else { Step::D }
}

// The steps of a schedule.
fn steps_of(alloc: Global, letters: &[u8]) -> Result<Vec<Step>, AllocError>
    requires { list_all is_step letters.now ≡ true }
    ensures { IfOk result (λ steps. map letter_of steps.items ≡ letters.now) }
{
    let mut steps = Vec::new(alloc);
    for letter in letters {
        steps.push(step_of(*letter))?;
    }
    Ok(steps)
}

fn schedule_of(alloc: Global, matches: &ArgMatches) -> Result<Vec<Step>, AllocError>
    requires { list_all is_step (schedule_from (first_value (found_of matches.now))) ≡ true }
    ensures { IfOk result (λ steps. map letter_of steps.items ≡ schedule_from (first_value (found_of matches.now))) }
{
    match matches.get_str("schedule") {
        Some(letters) => steps_of(alloc, letters.as_bytes()),
        None => Ok(Vec::new(alloc)),
    }
}

fn settings_of(alloc: Global, matches: &ArgMatches) -> Result<Settings, AllocError>
    requires { IsInRange (request_from (first_value (found_of matches.now))) }
    ensures asked { IfOk result (λ s. asked s ≡ request_from (first_value (found_of matches.now))) }
    ensures allowed { IfOk result (λ s. IsAllowed s.options) }
{
    let mode = mode_of(matches);
    let top = top_of(alloc, mode, matches)?;
    let schedule = schedule_of(alloc, matches)?;
    Ok(Settings {
        mode,
        top,
        size: number_or(0, "size", matches) as u32,
        options: options_of(matches),
        schedule,
    })
}

/// What accepted words ask for, with the defaults of what they leave out.
#[tactic(auto, using(crate::proofs::AskedLemmas::asked_rules))]
pub fn read_settings(alloc: Global, words: &[String]) -> Result<Settings, AllocError>
    requires { refusal (texts words.now) ≡ None }
    ensures asked { IfOk result (λ s. asked s ≡ request_of (texts words.now)) }
    ensures allowed { IfOk result (λ s. IsAllowed s.options) }
{
    match matches_of(alloc, words) {
        Ok(matches) => settings_of(alloc, &matches),
        Err(_) => Err(AllocError),
    }
}
