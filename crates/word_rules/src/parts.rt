ghost use Rattle.std.specs.Prelude.{◌≡◌, option_map, option_copied, bytes_eq, string_bytes};
ghost use Rattle.std.specs.List.{list_any};
ghost use Rattle.clap.specs.Lexer.{strip_byte, name_and_value, long_of};
ghost use Rattle.word_rules.specs.Words.{texts, names, is_option, option_names, value_at, value_of};

/// The names of the options.
pub const NAMES: [&str; 12] = [
    "mode", "top", "stop", "ahead", "h0", "hmin", "hmax", "tol", "ltol", "xres", "schedule", "size",
];

// What follows a first hyphen.
fn strip_hyphen(word: &str) -> Option<&str>
    ensures { option_copied result ≡ strip_byte 45 word.now }
{
    word.strip_prefix('-')
}

// What stands before the first `=`, and what stands behind it where there is one.
fn split_value(text: &str) -> (&str, Option<&str>)
    ensures { (result.0.now, option_copied result.1) ≡ name_and_value text.now }
{
    match text.split_once('=') {
        Some((name, value)) => (name, Some(value)),
        None => (text, None),
    }
}

/// `--name` or `--name=value`, as the name and the value.
pub fn split_word(word: &str) -> Option<(&str, Option<&str>)>
    ensures { option_map (λ p. (p.0.now, option_copied p.1)) result ≡ long_of word.now }
{
    let rest = strip_hyphen(strip_hyphen(word)?)?;
    if rest.is_empty() {
        return None;
    }
    Some(split_value(rest))
}

fn is_among(name: &str, others: &[&str]) -> bool
    ensures { result ≡ list_any (λ other. bytes_eq other.now name.now) others.now }
{
    others.iter().any(|other| *other == name)
}

/// Whether there is an option of this name.
#[tactic(auto, unfolding(crate::specs::Words::is_option, crate::specs::Words::option_names))]
pub fn is_option(name: &str) -> bool
    ensures { result ≡ is_option name.now }
{
    is_among(name, NAMES.as_slice())
}

/// Whether the word is `--name` or `--name=value`.
#[tactic(auto, unfolding(crate::specs::Words::names))]
pub fn names(name: &str, word: &str) -> bool
    ensures { result ≡ names name.now word.now }
{
    match split_word(word) {
        Some((other, _)) => other == name,
        None => false,
    }
}

// Whether one of the words names the option.
fn some_name(name: &str, words: &[String]) -> bool
    ensures { result ≡ list_any (λ word. names name.now (string_bytes word)) words.now }
{
    words.iter().any(|word| names(name, word.as_str()))
}

/// Whether one of the words names the option.
pub fn is_named(name: &str, words: &[String]) -> bool
    ensures { result ≡ list_any (names name.now) (texts words.now) }
{
    some_name(name, words)
}

// The value of the option that a word names.
#[tactic(auto, unfolding(crate::specs::Words::value_at))]
fn value_at<'a>(word: &'a str, words: &'a [String]) -> Option<&'a str>
    ensures { option_copied result ≡ value_at word.now (texts words.now) }
{
    match split_word(word) {
        Some((_, Some(value))) => Some(value),
        _ => match words {
            [next, ..] => Some(next.as_str()),
            [] => None,
        },
    }
}

/// The value that the words give an option.
pub fn value_of<'a>(name: &str, words: &'a [String]) -> Option<&'a str>
    ensures { option_copied result ≡ value_of name.now (texts words.now) }
{
    let mut rest = words;
    while let [word, others @ ..] = rest {
        if names(name, word.as_str()) {
            return value_at(word.as_str(), others);
        }
        rest = others;
    }
    None
}
