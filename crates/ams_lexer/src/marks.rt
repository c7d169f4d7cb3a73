ghost use Rattle.std.specs.Prelude.{◌≡◌};
ghost use Rattle.ams_lexer.specs.Marks.{pair_mark, single_mark, mark_at};

use ams_token::Mark;

fn pair_mark(first: u8, second: u8) -> Option<Mark>
    ensures { result ≡ pair_mark first second }
{
    match (first, second) {
        (b'=', b'>') => Some(Mark::Arrow),
        (b'*', b'*') => Some(Mark::DoubleStar),
        (b':', b'=') => Some(Mark::Assign),
        (b'/', b'=') => Some(Mark::NotEqual),
        (b'>', b'=') => Some(Mark::GreaterEqual),
        (b'<', b'=') => Some(Mark::LessEqual),
        (b'<', b'>') => Some(Mark::Box),
        (b'=', b'=') => Some(Mark::DoubleEqual),
        _ => None,
    }
}

fn single_mark(byte: u8) -> Option<Mark>
    ensures { result ≡ single_mark byte }
{
    match byte {
        b'&' => Some(Mark::Ampersand),
        b'\'' => Some(Mark::Tick),
        b'(' => Some(Mark::LeftParen),
        b')' => Some(Mark::RightParen),
        b'*' => Some(Mark::Star),
        b'+' => Some(Mark::Plus),
        b',' => Some(Mark::Comma),
        b'-' => Some(Mark::Minus),
        b'.' => Some(Mark::Point),
        b'/' => Some(Mark::Slash),
        b':' => Some(Mark::Colon),
        b';' => Some(Mark::Semicolon),
        b'<' => Some(Mark::Less),
        b'=' => Some(Mark::Equal),
        b'>' => Some(Mark::Greater),
        b'|' => Some(Mark::Bar),
        _ => None,
    }
}

/// The longest mark at the front, and how many bytes it takes.
#[tactic(auto, unfolding(crate::specs::Marks::mark_at))]
pub fn read_mark(bytes: &[u8]) -> Option<(Mark, usize)>
    ensures { result ≡ mark_at bytes.now }
{
    match bytes {
        [] => None,
        [byte] => match single_mark(*byte) {
            Some(mark) => Some((mark, 1)),
            None => None,
        },
        [byte, next, ..] => match (pair_mark(*byte, *next), single_mark(*byte)) {
            (Some(mark), _) => Some((mark, 2)),
            (None, Some(mark)) => Some((mark, 1)),
            (None, None) => None,
        },
    }
}
