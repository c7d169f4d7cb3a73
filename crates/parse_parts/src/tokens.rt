//! What a token is read as.

ghost use Rattle.std.specs.Prelude.{◌≡◌, is_some};
ghost use Rattle.ams_tree.specs.Terminals as terminals;
ghost use Rattle.parse_steps.specs.Reading.{from_next};
ghost use Rattle.parse_parts.specs.Parsing as spec;

use ams_token::{Token, TokenKind, Word};
use ams_tree::{Direction, Literal, LiteralValue};

#[tactic(auto, unfolding(ams_tree::specs::Terminals::direction_of))]
pub fn direction_of(next: Option<Token>) -> Option<Direction>
    ensures { result ≡ from_next terminals.direction_of next }
{
    match next?.kind {
        TokenKind::Word(Word::To) => Some(Direction::To),
        TokenKind::Word(Word::Downto) => Some(Direction::Downto),
        _ => None,
    }
}

#[tactic(auto, unfolding(ams_tree::specs::Terminals::string_of))]
pub fn string_of(next: Option<Token>) -> Option<Literal>
    ensures { result ≡ from_next terminals.string_of next }
{
    let token = next?;
    match token.kind {
        TokenKind::Str(number) => Some(Literal {
            value: LiteralValue::Str(number),
            place: token.place,
        }),
        _ => None,
    }
}

/// Whether a delay begins.
#[tactic(auto, unfolding(crate::specs::Parsing::delaying))]
pub fn begins_delay(next: Option<Token>) -> bool
    ensures { result ≡ is_some (from_next spec.delaying next) }
{
    let Some(token) = next else {
        return false;
    };
    match token.kind {
        TokenKind::Word(Word::Transport) => true,
        TokenKind::Word(Word::Reject) => true,
        TokenKind::Word(Word::Inertial) => true,
        _ => false,
    }
}

/// Whether an element of a break begins.
#[tactic(auto, unfolding(crate::specs::Parsing::breaking))]
pub fn begins_break(next: Option<Token>) -> bool
    ensures { result ≡ is_some (from_next spec.breaking next) }
{
    let Some(token) = next else {
        return false;
    };
    match token.kind {
        TokenKind::Name(_) => true,
        TokenKind::Word(Word::For) => true,
        _ => false,
    }
}
