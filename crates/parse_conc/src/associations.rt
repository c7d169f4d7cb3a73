ghost use Rattle.std.specs.Prelude.{◌≡◌};
ghost use Rattle.parse_steps.specs.Reading.{Reads};
ghost use Rattle.parse_steps.specs.Reply.{most_operators};
ghost use Rattle.parse_conc.specs.Parsing as spec;

use crate::tokens::name_then;
use ams_token::{Mark, TokenKind, Word};
use ams_tree::{Association, Name};
use parse_expr::outermost;
use parse_parts::name;
use parse_steps::{Reader, Stop};
use sqlite_items::Items;
use std::alloc::Global;

#[tactic(auto, using(parse_steps::proofs::Steps::terminal_seen), unfolding(crate::specs::Parsing::actual))]
fn actual(
    alloc: Global,
    reader: &mut Reader<'_>,
    levels: u32,
    formal: Option<Name>,
) -> Result<Association, Stop>
    ensures { Reads (spec.actual most_operators levels formal reader.old) result reader.new }
{
    if reader.at(TokenKind::Word(Word::Open)) {
        let place = reader.expect(TokenKind::Word(Word::Open))?;
        return Ok(Association::Open(formal, place));
    }
    Ok(Association::Actual(formal, outermost(alloc, reader, levels)?))
}

#[tactic(auto, using(parse_steps::proofs::Steps::terminal_seen), unfolding(crate::specs::Parsing::named_association))]
fn named_association(
    alloc: Global,
    reader: &mut Reader<'_>,
    levels: u32,
) -> Result<Association, Stop>
    ensures { Reads (spec.named_association most_operators levels reader.old) result reader.new }
{
    let formal = name(reader)?;
    reader.expect(TokenKind::Mark(Mark::Arrow))?;
    actual(alloc, reader, levels, Some(formal))
}

#[tactic(auto, using(parse_steps::proofs::Steps::terminal_seen), unfolding(crate::specs::Parsing::one_association))]
fn one_association(alloc: Global, reader: &mut Reader<'_>, levels: u32) -> Result<Association, Stop>
    ensures { Reads (spec.one_association most_operators levels reader.old) result reader.new }
{
    if name_then(reader, Mark::Arrow) {
        return named_association(alloc, reader, levels);
    }
    actual(alloc, reader, levels, None)
}

#[tactic(auto, using(parse_steps::proofs::Steps::terminal_seen), unfolding(crate::specs::Parsing::more_associations))]
fn more_associations(
    alloc: Global,
    reader: &mut Reader<'_>,
    levels: u32,
    first: Association,
) -> Result<Items<Association>, Stop>
    ensures { Reads (spec.more_associations most_operators levels first reader.old) result reader.new }
{
    let mut all = Items::new(alloc);
    all.push(first)?;
    for _turn in 0..reader.left() {
        if !reader.at(TokenKind::Mark(Mark::Comma)) {
            return Ok(all);
        }
        reader.expect(TokenKind::Mark(Mark::Comma))?;
        all.push(one_association(alloc, reader, levels)?)?;
    }
    Ok(all)
}

#[tactic(auto, using(parse_steps::proofs::Steps::terminal_seen), unfolding(crate::specs::Parsing::associations))]
fn associations(
    alloc: Global,
    reader: &mut Reader<'_>,
    levels: u32,
) -> Result<Items<Association>, Stop>
    ensures { Reads (spec.associations most_operators levels reader.old) result reader.new }
{
    let first = one_association(alloc, reader, levels)?;
    more_associations(alloc, reader, levels, first)
}

/// The associations behind `generic` or `port`, whose parenthesis opens a level, where one may open.
#[tactic(auto, using(parse_steps::proofs::Steps::terminal_seen), unfolding(crate::specs::Parsing::map_aspect))]
pub fn map_aspect(
    alloc: Global,
    reader: &mut Reader<'_>,
    levels: u32,
    allowed: bool,
) -> Result<Items<Association>, Stop>
    ensures { Reads (spec.map_aspect most_operators levels allowed reader.old) result reader.new }
{
    reader.expect(TokenKind::Word(Word::Map))?;
    reader.expect_within(TokenKind::Mark(Mark::LeftParen), allowed, 0)?;
    let all = associations(alloc, reader, levels)?;
    reader.expect(TokenKind::Mark(Mark::RightParen))?;
    Ok(all)
}
