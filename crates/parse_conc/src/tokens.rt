//! What the next tokens are.

ghost use Rattle.std.specs.Prelude.{◌≡◌, is_some};
ghost use Rattle.parse_steps.specs.Reading.{from_next};
ghost use Rattle.parse_conc.specs.Parsing as spec;

use ams_token::{Mark, Token, TokenKind, Word};
use parse_expr::name_of;
use parse_steps::Reader;

/// Whether an expression begins.
#[tactic(auto, unfolding(crate::specs::Parsing::begins_expression))]
pub fn begins_expression(next: Option<Token>) -> bool
    ensures { result ≡ is_some (from_next spec.begins_expression next) }
{
    let Some(token) = next else {
        return false;
    };
    match token.kind {
        TokenKind::Name(_) => true,
        TokenKind::Int(_) => true,
        TokenKind::Real(_) => true,
        TokenKind::Char(_) => true,
        TokenKind::Str(_) => true,
        TokenKind::Bits(_) => true,
        TokenKind::Word(Word::Abs) => true,
        TokenKind::Word(Word::Not) => true,
        TokenKind::Mark(Mark::Plus) => true,
        TokenKind::Mark(Mark::Minus) => true,
        TokenKind::Mark(Mark::LeftParen) => true,
        _ => false,
    }
}

/// Whether a concurrent statement begins.
#[tactic(auto, unfolding(crate::specs::Parsing::begins_concurrent, crate::specs::Parsing::begins_expression))]
pub fn begins_concurrent(next: Option<Token>) -> bool
    ensures { result ≡ is_some (from_next spec.begins_concurrent next) }
{
    let Some(token) = next else {
        return false;
    };
    match token.kind {
        TokenKind::Word(Word::Process) => true,
        TokenKind::Word(Word::If) => true,
        TokenKind::Word(Word::Case) => true,
        TokenKind::Word(Word::Assert) => true,
        TokenKind::Word(Word::Break) => true,
        _ => begins_expression(next),
    }
}

/// Whether an identifier comes next, and this mark behind it.
#[tactic(auto, unfolding(crate::specs::Parsing::name_then))]
pub fn name_then(reader: &Reader<'_>, mark: Mark) -> bool
    ensures { result ≡ spec.name_then mark reader.now.rest }
{
    name_of(reader.peek()).is_some() && reader.at_second(TokenKind::Mark(mark))
}
