//! Branch quantities, natures and terminals: declarations without expressions.

ghost use Rattle.std.specs.Prelude.{◌≡◌};
ghost use Rattle.parse_steps.specs.Reading.{Reads};
ghost use Rattle.parse_decl.specs.Parsing as spec;

use crate::parts::names_colon;
use ams_token::{Mark, Place, TokenKind, Word};
use ams_tree::{Declaration, Name};
use parse_parts::{more_names, name, name_after};
use parse_steps::{Reader, Stop};
use sqlite_items::Items;
use std::alloc::Global;

const SEMICOLON: TokenKind = TokenKind::Mark(Mark::Semicolon);

#[tactic(auto, unfolding(crate::specs::Parsing::to_name))]
fn to_name(reader: &mut Reader<'_>) -> Result<Option<Name>, Stop>
    ensures { Reads (spec.to_name reader.old) result reader.new }
{
    if !reader.at(TokenKind::Word(Word::To)) {
        return Ok(None);
    }
    let found = name_after(reader, Word::To)?;
    Ok(Some(found))
}

#[tactic(auto, unfolding(crate::specs::Parsing::across_ends))]
fn across_ends(
    reader: &mut Reader<'_>,
    place: Place,
    across: Items<Name>,
    through: Option<Items<Name>>,
    from: Name,
) -> Result<Declaration, Stop>
    ensures { Reads (spec.across_ends place across through from reader.old) result reader.new }
{
    let to = to_name(reader)?;
    reader.expect(SEMICOLON)?;
    Ok(Declaration::Across(place, across, through, from, to))
}

#[tactic(auto, unfolding(crate::specs::Parsing::across_through))]
fn across_through(
    alloc: Global,
    reader: &mut Reader<'_>,
    place: Place,
    ids: Items<Name>,
    first: Name,
) -> Result<Declaration, Stop>
    ensures { Reads (spec.across_through place ids first reader.old) result reader.new }
{
    let through = more_names(alloc, reader, first)?;
    let from = name_after(reader, Word::Through)?;
    across_ends(reader, place, ids, Some(through), from)
}

#[tactic(auto, unfolding(crate::specs::Parsing::across_branch))]
pub fn across_branch(
    alloc: Global,
    reader: &mut Reader<'_>,
    place: Place,
    ids: Items<Name>,
) -> Result<Declaration, Stop>
    ensures { Reads (spec.across_branch place ids reader.old) result reader.new }
{
    let first = name_after(reader, Word::Across)?;
    if reader.at(TokenKind::Mark(Mark::Comma)) || reader.at(TokenKind::Word(Word::Through)) {
        return across_through(alloc, reader, place, ids, first);
    }
    across_ends(reader, place, ids, None, first)
}

#[tactic(auto, unfolding(crate::specs::Parsing::through_branch))]
pub fn through_branch(
    reader: &mut Reader<'_>,
    place: Place,
    ids: Items<Name>,
) -> Result<Declaration, Stop>
    ensures { Reads (spec.through_branch place ids reader.old) result reader.new }
{
    let from = name_after(reader, Word::Through)?;
    let to = to_name(reader)?;
    reader.expect(SEMICOLON)?;
    Ok(Declaration::Through(place, ids, from, to))
}

#[tactic(auto, unfolding(crate::specs::Parsing::rest_of_nature))]
fn rest_of_nature(
    reader: &mut Reader<'_>,
    place: Place,
    name: Name,
    across: Name,
) -> Result<Declaration, Stop>
    ensures { Reads (spec.rest_of_nature place name across reader.old) result reader.new }
{
    let through = name_after(reader, Word::Across)?;
    let reference = name_after(reader, Word::Through)?;
    reader.expect(TokenKind::Word(Word::Reference))?;
    reader.expect(SEMICOLON)?;
    Ok(Declaration::Nature(place, name, across, through, reference))
}

#[tactic(auto, unfolding(crate::specs::Parsing::nature_declaration))]
pub fn nature_declaration(reader: &mut Reader<'_>) -> Result<Declaration, Stop>
    ensures { Reads (spec.nature_declaration reader.old) result reader.new }
{
    let place = reader.expect(TokenKind::Word(Word::Nature))?;
    let found = name(reader)?;
    let across = name_after(reader, Word::Is)?;
    rest_of_nature(reader, place, found, across)
}

#[tactic(auto, unfolding(crate::specs::Parsing::terminal_declaration))]
pub fn terminal_declaration(alloc: Global, reader: &mut Reader<'_>) -> Result<Declaration, Stop>
    ensures { Reads (spec.terminal_declaration reader.old) result reader.new }
{
    let place = reader.expect(TokenKind::Word(Word::Terminal))?;
    let ids = names_colon(alloc, reader)?;
    let nature = name(reader)?;
    reader.expect(SEMICOLON)?;
    Ok(Declaration::Terminal(place, ids, nature))
}
