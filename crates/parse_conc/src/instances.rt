ghost use Rattle.std.specs.Prelude.{◌≡◌};
ghost use Rattle.parse_steps.specs.Reading.{Reads};
ghost use Rattle.parse_steps.specs.Reply.{most_operators};
ghost use Rattle.parse_conc.specs.Parsing as spec;

use crate::associations::map_aspect;
use ams_token::{Mark, Place, TokenKind, Word};
use ams_tree::{Association, ConcurrentStatement, Instance, Name};
use held_value::Held;
use parse_parts::name;
use parse_steps::{Reader, Stop};
use sqlite_items::Items;
use std::alloc::Global;

/// The place of `entity`, the library and the entity, and the architecture.
type Aspect = (Place, (Option<Name>, Name), Option<Name>);

#[tactic(auto, using(parse_steps::proofs::Steps::terminal_seen), unfolding(crate::specs::Parsing::entity_name))]
fn entity_name(reader: &mut Reader<'_>, first: Name) -> Result<(Option<Name>, Name), Stop>
    ensures { Reads (spec.entity_name first reader.old) result reader.new }
{
    if !reader.at(TokenKind::Mark(Mark::Point)) {
        return Ok((None, first));
    }
    reader.expect(TokenKind::Mark(Mark::Point))?;
    let second = name(reader)?;
    Ok((Some(first), second))
}

#[tactic(auto, using(parse_steps::proofs::Steps::terminal_seen), unfolding(crate::specs::Parsing::architecture_name))]
fn architecture_name(reader: &mut Reader<'_>, levels: u32) -> Result<Name, Stop>
    ensures { Reads (spec.architecture_name most_operators levels reader.old) result reader.new }
{
    reader.expect_within(TokenKind::Mark(Mark::LeftParen), levels > 0, 0)?;
    let found = name(reader)?;
    reader.expect(TokenKind::Mark(Mark::RightParen))?;
    Ok(found)
}

#[tactic(auto, using(parse_steps::proofs::Steps::terminal_seen), unfolding(crate::specs::Parsing::maybe_architecture))]
fn maybe_architecture(reader: &mut Reader<'_>, levels: u32) -> Result<Option<Name>, Stop>
    ensures { Reads (spec.maybe_architecture most_operators levels reader.old) result reader.new }
{
    if !reader.at(TokenKind::Mark(Mark::LeftParen)) {
        return Ok(None);
    }
    Ok(Some(architecture_name(reader, levels)?))
}

#[tactic(auto, using(parse_steps::proofs::Steps::terminal_seen), unfolding(crate::specs::Parsing::entity_aspect))]
fn entity_aspect(reader: &mut Reader<'_>, levels: u32) -> Result<Aspect, Stop>
    ensures { Reads (spec.entity_aspect most_operators levels reader.old) result reader.new }
{
    let place = reader.expect(TokenKind::Word(Word::Entity))?;
    let first = name(reader)?;
    let names = entity_name(reader, first)?;
    let architecture = maybe_architecture(reader, levels)?;
    Ok((place, names, architecture))
}

#[tactic(auto, using(parse_steps::proofs::Steps::terminal_seen), unfolding(crate::specs::Parsing::maybe_map))]
fn maybe_map(
    alloc: Global,
    reader: &mut Reader<'_>,
    levels: u32,
    word: Word,
) -> Result<Option<Items<Association>>, Stop>
    ensures { Reads (spec.maybe_map most_operators levels word reader.old) result reader.new }
{
    if !reader.at(TokenKind::Word(word)) {
        return Ok(None);
    }
    reader.expect(TokenKind::Word(word))?;
    let all = map_aspect(alloc, reader, levels.saturating_sub(1), levels > 0)?;
    Ok(Some(all))
}

#[tactic(auto, using(parse_steps::proofs::Steps::terminal_seen), unfolding(crate::specs::Parsing::maps))]
fn maps(
    alloc: Global,
    reader: &mut Reader<'_>,
    levels: u32,
    aspect: Aspect,
) -> Result<ConcurrentStatement, Stop>
    ensures { Reads (spec.maps most_operators levels aspect reader.old) result reader.new }
{
    let generics = Held::new(maybe_map(alloc, reader, levels, Word::Generic)?);
    let ports = Held::new(maybe_map(alloc, reader, levels, Word::Port)?);
    reader.expect(TokenKind::Mark(Mark::Semicolon))?;
    let (place, (library, entity), architecture) = aspect;
    Ok(ConcurrentStatement::Instance(Instance {
        place,
        library,
        entity,
        architecture,
        generics: generics.into_inner(),
        ports: ports.into_inner(),
    }))
}

/// A direct instantiation.
#[tactic(auto, using(parse_steps::proofs::Steps::terminal_seen), unfolding(crate::specs::Parsing::instance))]
pub fn instance(
    alloc: Global,
    reader: &mut Reader<'_>,
    levels: u32,
) -> Result<ConcurrentStatement, Stop>
    ensures { Reads (spec.instance most_operators levels reader.old) result reader.new }
{
    let aspect = entity_aspect(reader, levels)?;
    maps(alloc, reader, levels, aspect)
}
