//! Architectures and design files.

ghost use Rattle.std.specs.Prelude.{◌≡◌, is_some};
ghost use Rattle.parse_steps.specs.Reading.{Reads, from_next};
ghost use Rattle.parse_steps.specs.Reply.{most_operators};
ghost use Rattle.ams_parser.specs.Files as spec;

use crate::contexts::{library_clause, unit_end, use_clause};
use crate::entities::entity;
use ams_token::{Token, TokenKind, Word};
use ams_tree::{Architecture, Concurrent, Declaration, DesignFile, DesignUnit, Name};
use parse_conc::{any_concurrent, begins_concurrent};
use parse_decl::{any_declaration, begins_declaration};
use parse_parts::{name, name_after};
use parse_steps::{Reader, Stop};
use sqlite_items::Items;
use std::alloc::Global;

#[tactic(auto, unfolding(crate::specs::Files::begins_unit))]
fn begins_unit(next: Option<Token>) -> bool
    ensures { result ≡ is_some (from_next spec.begins_unit next) }
{
    let Some(token) = next else {
        return false;
    };
    match token.kind {
        TokenKind::Word(Word::Library) => true,
        TokenKind::Word(Word::Use) => true,
        TokenKind::Word(Word::Entity) => true,
        TokenKind::Word(Word::Architecture) => true,
        _ => false,
    }
}

// An architecture's name, and that of its entity.
#[tactic(auto, unfolding(crate::specs::Files::architecture_head))]
fn architecture_head(reader: &mut Reader<'_>) -> Result<(Name, Name), Stop>
    ensures { Reads (spec.architecture_head reader.old) result reader.new }
{
    reader.expect(TokenKind::Word(Word::Architecture))?;
    let found = name(reader)?;
    let entity = name_after(reader, Word::Of)?;
    reader.expect(TokenKind::Word(Word::Is))?;
    Ok((found, entity))
}

#[tactic(auto, unfolding(crate::specs::Files::declarations))]
fn declarations(
    alloc: Global,
    reader: &mut Reader<'_>,
    levels: u32,
) -> Result<Items<Declaration>, Stop>
    ensures { Reads (spec.declarations most_operators levels reader.old) result reader.new }
{
    let mut all = Items::new(alloc);
    for _turn in 0..reader.left() {
        if !begins_declaration(reader.peek()) {
            return Ok(all);
        }
        all.push(any_declaration(alloc, reader, levels)?)?;
    }
    Ok(all)
}

#[tactic(auto, unfolding(crate::specs::Files::statements))]
fn statements(
    alloc: Global,
    reader: &mut Reader<'_>,
    levels: u32,
) -> Result<Items<Concurrent>, Stop>
    ensures { Reads (spec.statements most_operators levels reader.old) result reader.new }
{
    let mut all = Items::new(alloc);
    for _turn in 0..reader.left() {
        if !begins_concurrent(reader.peek()) {
            return Ok(all);
        }
        all.push(any_concurrent(alloc, reader, levels)?)?;
    }
    Ok(all)
}

#[tactic(auto, unfolding(crate::specs::Files::architecture))]
fn architecture(alloc: Global, reader: &mut Reader<'_>, levels: u32) -> Result<DesignUnit, Stop>
    ensures { Reads (spec.architecture most_operators levels reader.old) result reader.new }
{
    let (name, entity) = architecture_head(reader)?;
    let declarations = declarations(alloc, reader, levels)?;
    reader.expect(TokenKind::Word(Word::Begin))?;
    let statements = statements(alloc, reader, levels)?;
    let (word_end, end) = unit_end(reader, Word::Architecture)?;
    Ok(DesignUnit::Architecture(Architecture {
        name,
        entity,
        declarations,
        statements,
        word_end,
        end,
    }))
}

#[tactic(auto, unfolding(crate::specs::Files::design_unit))]
fn design_unit(alloc: Global, reader: &mut Reader<'_>, levels: u32) -> Result<DesignUnit, Stop>
    ensures { Reads (spec.design_unit most_operators levels reader.old) result reader.new }
{
    if reader.at(TokenKind::Word(Word::Library)) {
        return library_clause(alloc, reader);
    }
    if reader.at(TokenKind::Word(Word::Use)) {
        return use_clause(alloc, reader);
    }
    if reader.at(TokenKind::Word(Word::Entity)) {
        return entity(alloc, reader, levels);
    }
    architecture(alloc, reader, levels)
}

#[tactic(auto, unfolding(crate::specs::Files::units))]
fn units(alloc: Global, reader: &mut Reader<'_>, levels: u32) -> Result<Items<DesignUnit>, Stop>
    ensures { Reads (spec.units most_operators levels reader.old) result reader.new }
{
    let mut all = Items::new(alloc);
    for _turn in 0..reader.left() {
        if !begins_unit(reader.peek()) {
            return Ok(all);
        }
        all.push(design_unit(alloc, reader, levels)?)?;
    }
    Ok(all)
}

/// The units from here on, in which `levels` levels may be open.
#[tactic(auto, unfolding(crate::specs::Files::design_file))]
pub fn design_file(alloc: Global, reader: &mut Reader<'_>, levels: u32) -> Result<DesignFile, Stop>
    ensures { Reads (spec.design_file most_operators levels reader.old) result reader.new }
{
    let units = units(alloc, reader, levels)?;
    Ok(DesignFile { units })
}
