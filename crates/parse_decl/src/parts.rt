//! The parts of declarations: names, types and default values.

ghost use Rattle.std.specs.Prelude.{◌≡◌};
ghost use Rattle.parse_steps.specs.Reading.{Reads};
ghost use Rattle.parse_steps.specs.Reply.{most_operators};
ghost use Rattle.parse_decl.specs.Parsing as spec;

use crate::tokens::mode_of;
use ams_token::{Mark, Place, TokenKind, Word};
use ams_tree::{Bounds, Expr, Mode, Name, Range, SubtypeIndication};
use held_value::Held;
use parse_expr::{outermost, outermost_simple};
use parse_parts::{name, names, range};
use parse_steps::{Reader, Stop};
use sqlite_items::Items;
use std::alloc::Global;

const ASSIGN: TokenKind = TokenKind::Mark(Mark::Assign);

const OPEN: TokenKind = TokenKind::Mark(Mark::LeftParen);

/// Identifiers with commas between them, and a colon.
#[tactic(auto, unfolding(crate::specs::Parsing::names_colon))]
pub fn names_colon(alloc: Global, reader: &mut Reader<'_>) -> Result<Items<Name>, Stop>
    ensures { Reads (spec.names_colon reader.old) result reader.new }
{
    let all = names(alloc, reader)?;
    reader.expect(TokenKind::Mark(Mark::Colon))?;
    Ok(all)
}

/// The place of a word that may be left out.
#[tactic(auto, unfolding(crate::specs::Parsing::word_place))]
pub fn word_place(reader: &mut Reader<'_>, word: Word) -> Result<Option<Place>, Stop>
    ensures { Reads (spec.word_place word reader.old) result reader.new }
{
    if !reader.at(TokenKind::Word(word)) {
        return Ok(None);
    }
    let place = reader.expect(TokenKind::Word(word))?;
    Ok(Some(place))
}

/// Whether a word stands here that may be left out.
#[tactic(auto, unfolding(crate::specs::Parsing::word_said))]
pub fn word_said(reader: &mut Reader<'_>, word: Word) -> Result<bool, Stop>
    ensures { Reads (spec.word_said word reader.old) result reader.new }
{
    if !reader.at(TokenKind::Word(word)) {
        return Ok(false);
    }
    reader.expect(TokenKind::Word(word))?;
    Ok(true)
}

#[tactic(auto, using(parse_steps::proofs::Steps::terminal_seen), unfolding(crate::specs::Parsing::mode))]
pub fn mode(reader: &mut Reader<'_>) -> Result<Option<Mode>, Stop>
    ensures { Reads (spec.mode reader.old) result reader.new }
{
    let Some(mode) = mode_of(reader.peek()) else {
        return Ok(None);
    };
    reader.take(true, 0)?;
    Ok(Some(mode))
}

#[tactic(auto, unfolding(crate::specs::Parsing::bounds))]
fn bounds(alloc: Global, reader: &mut Reader<'_>, levels: u32) -> Result<Bounds, Stop>
    ensures { Reads (spec.bounds most_operators levels reader.old) result reader.new }
{
    reader.expect(TokenKind::Word(Word::Range))?;
    let low = Held::new(outermost_simple(alloc, reader, levels)?);
    reader.expect(TokenKind::Word(Word::To))?;
    let high = outermost_simple(alloc, reader, levels)?;
    Ok(Bounds {
        low: low.into_inner(),
        high,
    })
}

/// The value behind `:=`, which may be left out.
#[tactic(auto, unfolding(crate::specs::Parsing::default))]
pub fn default(alloc: Global, reader: &mut Reader<'_>, levels: u32) -> Result<Option<Expr>, Stop>
    ensures { Reads (spec.default most_operators levels reader.old) result reader.new }
{
    if !reader.at(ASSIGN) {
        return Ok(None);
    }
    reader.expect(ASSIGN)?;
    let value = outermost(alloc, reader, levels)?;
    Ok(Some(value))
}

#[tactic(auto, unfolding(crate::specs::Parsing::index))]
fn index(alloc: Global, reader: &mut Reader<'_>, levels: u32) -> Result<Range, Stop>
    ensures { Reads (spec.index most_operators levels reader.old) result reader.new }
{
    reader.expect_within(OPEN, levels > 0, 0)?;
    let found = Held::new(range(alloc, reader, levels.saturating_sub(1))?);
    reader.expect(TokenKind::Mark(Mark::RightParen))?;
    Ok(found.into_inner())
}

#[tactic(auto, unfolding(crate::specs::Parsing::some_index))]
fn some_index(alloc: Global, reader: &mut Reader<'_>, levels: u32) -> Result<Option<Range>, Stop>
    ensures { Reads (spec.some_index most_operators levels reader.old) result reader.new }
{
    if !reader.at(OPEN) {
        return Ok(None);
    }
    let found = index(alloc, reader, levels)?;
    Ok(Some(found))
}

#[tactic(auto, unfolding(crate::specs::Parsing::some_bounds))]
fn some_bounds(alloc: Global, reader: &mut Reader<'_>, levels: u32) -> Result<Option<Bounds>, Stop>
    ensures { Reads (spec.some_bounds most_operators levels reader.old) result reader.new }
{
    if !reader.at(TokenKind::Word(Word::Range)) {
        return Ok(None);
    }
    let found = bounds(alloc, reader, levels)?;
    Ok(Some(found))
}

/// A type, in whose bounds `levels` parentheses may be open.
#[tactic(auto, unfolding(crate::specs::Parsing::indication))]
pub fn indication(
    alloc: Global,
    reader: &mut Reader<'_>,
    levels: u32,
) -> Result<SubtypeIndication, Stop>
    ensures { Reads (spec.indication most_operators levels reader.old) result reader.new }
{
    let mark = name(reader)?;
    let index = Held::new(some_index(alloc, reader, levels)?);
    let bounds = some_bounds(alloc, reader, levels)?;
    Ok(SubtypeIndication {
        mark,
        index: index.into_inner(),
        bounds,
    })
}
