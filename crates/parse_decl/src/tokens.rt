//! What a token is read as, and whether it begins a declaration.

ghost use Rattle.std.specs.Prelude.{◌≡◌, is_some};
ghost use Rattle.ams_tree.specs.Terminals as terminals;
ghost use Rattle.parse_steps.specs.Reading.{from_next};
ghost use Rattle.parse_decl.specs.Firsts as firsts;

use ams_token::{Token, TokenKind, Word};
use ams_tree::Mode;

#[tactic(auto, unfolding(ams_tree::specs::Terminals::mode_of))]
pub fn mode_of(next: Option<Token>) -> Option<Mode>
    ensures { result ≡ from_next terminals.mode_of next }
{
    match next?.kind {
        TokenKind::Word(Word::In) => Some(Mode::In),
        TokenKind::Word(Word::Out) => Some(Mode::Out),
        _ => None,
    }
}

/// Whether it begins a declaration of an architecture.
#[tactic(auto, unfolding(crate::specs::Firsts::begins_declaration))]
pub fn begins_declaration(next: Option<Token>) -> bool
    ensures { result ≡ is_some (from_next firsts.begins_declaration next) }
{
    let Some(token) = next else {
        return false;
    };
    match token.kind {
        TokenKind::Word(Word::Signal) => true,
        TokenKind::Word(Word::Constant) => true,
        TokenKind::Word(Word::Terminal) => true,
        TokenKind::Word(Word::Quantity) => true,
        TokenKind::Word(Word::Nature) => true,
        TokenKind::Word(Word::Type) => true,
        TokenKind::Word(Word::Subtype) => true,
        _ => false,
    }
}

/// Whether it begins a declaration of a process.
#[tactic(auto, unfolding(crate::specs::Firsts::begins_process_declaration))]
pub fn begins_process_declaration(next: Option<Token>) -> bool
    ensures { result ≡ is_some (from_next firsts.begins_process_declaration next) }
{
    let Some(token) = next else {
        return false;
    };
    match token.kind {
        TokenKind::Word(Word::Variable) => true,
        TokenKind::Word(Word::Constant) => true,
        _ => false,
    }
}
