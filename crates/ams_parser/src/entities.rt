//! Entities.

ghost use Rattle.std.specs.Prelude.{◌≡◌};
ghost use Rattle.parse_steps.specs.Reading.{Reads};
ghost use Rattle.parse_steps.specs.Reply.{most_operators};
ghost use Rattle.ams_parser.specs.Parsing as spec;

use crate::contexts::unit_end;
use ams_token::{Mark, TokenKind, Word};
use ams_tree::{DesignUnit, Entity, Generic, Name, Port};
use parse_decl::{generic, port_declaration};
use parse_parts::name;
use parse_steps::{Reader, Stop};
use sqlite_items::Items;
use std::alloc::Global;

const SEMICOLON: TokenKind = TokenKind::Mark(Mark::Semicolon);

const OPEN: TokenKind = TokenKind::Mark(Mark::LeftParen);

const CLOSE: TokenKind = TokenKind::Mark(Mark::RightParen);

#[tactic(auto, unfolding(crate::specs::Parsing::more_generics))]
fn more_generics(
    alloc: Global,
    reader: &mut Reader<'_>,
    levels: u32,
    first: Generic,
) -> Result<Items<Generic>, Stop>
    ensures { Reads (spec.more_generics most_operators levels first reader.old) result reader.new }
{
    let mut all = Items::new(alloc);
    all.push(first)?;
    for _turn in 0..reader.left() {
        if !reader.at(SEMICOLON) {
            return Ok(all);
        }
        reader.expect(SEMICOLON)?;
        all.push(generic(alloc, reader, levels)?)?;
    }
    Ok(all)
}

#[tactic(auto, unfolding(crate::specs::Parsing::generics))]
fn generics(alloc: Global, reader: &mut Reader<'_>, levels: u32) -> Result<Items<Generic>, Stop>
    ensures { Reads (spec.generics most_operators levels reader.old) result reader.new }
{
    let first = generic(alloc, reader, levels)?;
    more_generics(alloc, reader, levels, first)
}

#[tactic(auto, unfolding(crate::specs::Parsing::generic_clause))]
fn generic_clause(
    alloc: Global,
    reader: &mut Reader<'_>,
    levels: u32,
) -> Result<Items<Generic>, Stop>
    ensures { Reads (spec.generic_clause most_operators levels reader.old) result reader.new }
{
    reader.expect(TokenKind::Word(Word::Generic))?;
    reader.expect_within(OPEN, levels > 0, 0)?;
    let all = generics(alloc, reader, levels.saturating_sub(1))?;
    reader.expect(CLOSE)?;
    reader.expect(SEMICOLON)?;
    Ok(all)
}

#[tactic(auto, unfolding(crate::specs::Parsing::some_generics))]
fn some_generics(
    alloc: Global,
    reader: &mut Reader<'_>,
    levels: u32,
) -> Result<Items<Generic>, Stop>
    ensures { Reads (spec.some_generics most_operators levels reader.old) result reader.new }
{
    if !reader.at(TokenKind::Word(Word::Generic)) {
        return Ok(Items::new(alloc));
    }
    generic_clause(alloc, reader, levels)
}

#[tactic(auto, unfolding(crate::specs::Parsing::more_ports))]
fn more_ports(
    alloc: Global,
    reader: &mut Reader<'_>,
    levels: u32,
    first: Port,
) -> Result<Items<Port>, Stop>
    ensures { Reads (spec.more_ports most_operators levels first reader.old) result reader.new }
{
    let mut all = Items::new(alloc);
    all.push(first)?;
    for _turn in 0..reader.left() {
        if !reader.at(SEMICOLON) {
            return Ok(all);
        }
        reader.expect(SEMICOLON)?;
        all.push(port_declaration(alloc, reader, levels)?)?;
    }
    Ok(all)
}

#[tactic(auto, unfolding(crate::specs::Parsing::ports))]
fn ports(alloc: Global, reader: &mut Reader<'_>, levels: u32) -> Result<Items<Port>, Stop>
    ensures { Reads (spec.ports most_operators levels reader.old) result reader.new }
{
    let first = port_declaration(alloc, reader, levels)?;
    more_ports(alloc, reader, levels, first)
}

#[tactic(auto, unfolding(crate::specs::Parsing::port_clause))]
fn port_clause(alloc: Global, reader: &mut Reader<'_>, levels: u32) -> Result<Items<Port>, Stop>
    ensures { Reads (spec.port_clause most_operators levels reader.old) result reader.new }
{
    reader.expect(TokenKind::Word(Word::Port))?;
    reader.expect_within(OPEN, levels > 0, 0)?;
    let all = ports(alloc, reader, levels.saturating_sub(1))?;
    reader.expect(CLOSE)?;
    reader.expect(SEMICOLON)?;
    Ok(all)
}

#[tactic(auto, unfolding(crate::specs::Parsing::some_ports))]
fn some_ports(alloc: Global, reader: &mut Reader<'_>, levels: u32) -> Result<Items<Port>, Stop>
    ensures { Reads (spec.some_ports most_operators levels reader.old) result reader.new }
{
    if !reader.at(TokenKind::Word(Word::Port)) {
        return Ok(Items::new(alloc));
    }
    port_clause(alloc, reader, levels)
}

#[tactic(auto, unfolding(crate::specs::Parsing::entity_head))]
fn entity_head(reader: &mut Reader<'_>) -> Result<Name, Stop>
    ensures { Reads (spec.entity_head reader.old) result reader.new }
{
    reader.expect(TokenKind::Word(Word::Entity))?;
    let found = name(reader)?;
    reader.expect(TokenKind::Word(Word::Is))?;
    Ok(found)
}

/// An entity, in which `levels` parentheses may be open.
#[tactic(auto, unfolding(crate::specs::Parsing::entity))]
pub fn entity(alloc: Global, reader: &mut Reader<'_>, levels: u32) -> Result<DesignUnit, Stop>
    ensures { Reads (spec.entity most_operators levels reader.old) result reader.new }
{
    let name = entity_head(reader)?;
    let generics = some_generics(alloc, reader, levels)?;
    let ports = some_ports(alloc, reader, levels)?;
    let (word_end, end) = unit_end(reader, Word::Entity)?;
    Ok(DesignUnit::Entity(Entity {
        name,
        generics,
        ports,
        word_end,
        end,
    }))
}
