ghost use Rattle.std.specs.Prelude.{ℕ, List, ◌≡◌, None, false, map, IfOk, IfErr};
ghost use Rattle.clap.specs.Walk.{rule_of};
ghost use Rattle.clap.specs.Simple.{app_of};
ghost use Rattle.clap.specs.Matches.{found_of, first_value};
ghost use Rattle.clap.specs.Values.{kind_of};
ghost use Rattle.clap.specs.declared.error.kind.ErrorKind.TheVariants.{OutOfMemory};
ghost use Rattle.word_rules.specs.Words.{texts, value_of, refusal};
ghost use Rattle.program_words.specs.Command.{given_rule, options_app};

use clap::{Arg, ArgAction, ArgMatches, Command, Error};
use std::alloc::{AllocError, Global};

// The names of the options.
static NAMES: [&str; 12] = [
    "mode", "top", "stop", "ahead", "h0", "hmin", "hmax", "tol", "ltol", "xres", "schedule", "size",
];

// An option that takes one value.
fn option<'a>(alloc: Global, name: &'a str) -> Arg<'a>
    ensures rule { rule_of result ≡ given_rule name.entry.now }
    ensures local { result.global ≡ false }
{
    Arg::new(alloc, name).long(name).action(ArgAction::Set)
}

// The command with options of these names.
fn command<'a>(alloc: Global, names: &'a [&'a str]) -> Result<Command<'a>, AllocError>
    ensures { IfOk result (λ c. app_of c ≡ options_app (map (λ name. name.now) names.entry.now)) }
{
    let mut command = Command::new(alloc, "ams_run")
        .no_binary_name(true)
        .disable_help_flag(true);
    for name in names {
        command = command.arg(option(alloc, *name))?;
    }
    Ok(command)
}

/// What accepted words give each option. They are refused only for want of memory.
pub fn matches_of<'a>(alloc: Global, words: &'a [String]) -> Result<ArgMatches<'a>, Error>
    requires { refusal (texts words.now) ≡ None }
    ensures values { IfOk result (λ m. (name : List ℕ) → first_value (found_of m) name ≡ value_of name (texts words.entry.now)) }
    ensures memory { IfErr result (λ e. kind_of e ≡ OutOfMemory) }
{
    command(alloc, NAMES.as_slice())?.try_get_matches_from(words)
}
