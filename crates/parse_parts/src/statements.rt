ghost use Rattle.std.specs.Prelude.{◌≡◌};
ghost use Rattle.ams_tree.specs.Terminals as terminals;
ghost use Rattle.parse_steps.specs.Reading as reading;
ghost use Rattle.parse_steps.specs.Reading.{Reads};
ghost use Rattle.parse_steps.specs.Reply.{most_operators};
ghost use Rattle.parse_parts.specs.Parsing as spec;

use crate::lists::name;
use crate::tokens::string_of;
use ams_token::{Mark, Place, TokenKind, Word};
use ams_tree::{Assertion, Expr, Literal, Name};
use held_value::Held;
use parse_expr::outermost;
use parse_steps::{Reader, Stop};
use std::alloc::Global;

/// `end`, this word, and the semicolon, whose place it gives.
#[tactic(auto, using(parse_steps::proofs::Steps::terminal_seen), unfolding(crate::specs::Parsing::ending))]
pub fn ending(reader: &mut Reader<'_>, word: Word) -> Result<Place, Stop>
    ensures { Reads (spec.ending word reader.old) result reader.new }
{
    reader.expect(TokenKind::Word(Word::End))?;
    reader.expect(TokenKind::Word(word))?;
    reader.expect(TokenKind::Mark(Mark::Semicolon))
}

/// A string.
#[tactic(auto, using(parse_steps::proofs::Steps::terminal_seen))]
pub fn string(reader: &mut Reader<'_>) -> Result<Literal, Stop>
    ensures { Reads (reading.one terminals.string_of reader.old) result reader.new }
{
    let Some(text) = string_of(reader.peek()) else {
        return Err(Stop::Syntax(reader.left()));
    };
    reader.take(true, 0)?;
    Ok(text)
}

/// The name behind `severity`, where it is written.
#[tactic(auto, using(parse_steps::proofs::Steps::terminal_seen), unfolding(crate::specs::Parsing::severity))]
pub fn severity(reader: &mut Reader<'_>) -> Result<Option<Name>, Stop>
    ensures { Reads (spec.severity reader.old) result reader.new }
{
    if !reader.at(TokenKind::Word(Word::Severity)) {
        return Ok(None);
    }
    reader.expect(TokenKind::Word(Word::Severity))?;
    Ok(Some(name(reader)?))
}

#[tactic(auto, using(parse_steps::proofs::Steps::terminal_seen), unfolding(crate::specs::Parsing::message))]
fn message(reader: &mut Reader<'_>) -> Result<Option<Literal>, Stop>
    ensures { Reads (spec.message reader.old) result reader.new }
{
    if !reader.at(TokenKind::Word(Word::Report)) {
        return Ok(None);
    }
    reader.expect(TokenKind::Word(Word::Report))?;
    Ok(Some(string(reader)?))
}

/// An assertion with its semicolon.
#[tactic(auto, using(parse_steps::proofs::Steps::terminal_seen), unfolding(crate::specs::Parsing::assertion))]
pub fn assertion(alloc: Global, reader: &mut Reader<'_>, levels: u32) -> Result<Assertion, Stop>
    ensures { Reads (spec.assertion most_operators levels reader.old) result reader.new }
{
    let place = reader.expect(TokenKind::Word(Word::Assert))?;
    let condition = Held::new(outermost(alloc, reader, levels)?);
    let text = message(reader)?;
    let severity = severity(reader)?;
    reader.expect(TokenKind::Mark(Mark::Semicolon))?;
    Ok(Assertion {
        place,
        condition: condition.into_inner(),
        text,
        severity,
    })
}

/// The condition behind `when`, where it is written.
#[tactic(auto, using(parse_steps::proofs::Steps::terminal_seen), unfolding(crate::specs::Parsing::condition))]
pub fn condition(alloc: Global, reader: &mut Reader<'_>, levels: u32) -> Result<Option<Expr>, Stop>
    ensures { Reads (spec.condition most_operators levels reader.old) result reader.new }
{
    if !reader.at(TokenKind::Word(Word::When)) {
        return Ok(None);
    }
    reader.expect(TokenKind::Word(Word::When))?;
    Ok(Some(outermost(alloc, reader, levels)?))
}
