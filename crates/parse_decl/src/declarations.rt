//! Declarations of architectures and processes.

ghost use Rattle.std.specs.Prelude.{◌≡◌};
ghost use Rattle.parse_steps.specs.Reading.{Reads};
ghost use Rattle.parse_steps.specs.Reply.{most_operators};
ghost use Rattle.parse_decl.specs.Parsing as spec;

use crate::branches::{across_branch, nature_declaration, terminal_declaration, through_branch};
use crate::parts::{default, indication, names_colon};
use ams_token::{Mark, Place, TokenKind, Word};
use ams_tree::{Declaration, Expr, Name, ProcessDeclaration, SubtypeIndication};
use held_value::Held;
use parse_expr::outermost;
use parse_parts::{name, names};
use parse_steps::{Reader, Stop};
use sqlite_items::Items;
use std::alloc::Global;

const COLON: TokenKind = TokenKind::Mark(Mark::Colon);

const SEMICOLON: TokenKind = TokenKind::Mark(Mark::Semicolon);

#[tactic(auto, unfolding(crate::specs::Parsing::signal_declaration))]
fn signal_declaration(
    alloc: Global,
    reader: &mut Reader<'_>,
    levels: u32,
) -> Result<Declaration, Stop>
    ensures { Reads (spec.signal_declaration most_operators levels reader.old) result reader.new }
{
    let place = reader.expect(TokenKind::Word(Word::Signal))?;
    let ids = names_colon(alloc, reader)?;
    let indication = Held::new(indication(alloc, reader, levels)?);
    let value = Held::new(default(alloc, reader, levels)?);
    reader.expect(SEMICOLON)?;
    Ok(Declaration::Signal(place, ids, indication.into_inner(), value.into_inner()))
}

#[tactic(auto, unfolding(crate::specs::Parsing::constant_end))]
fn constant_end(
    reader: &mut Reader<'_>,
    ids: Items<Name>,
    indication: SubtypeIndication,
    value: Expr,
) -> Result<(Items<Name>, SubtypeIndication, Expr), Stop>
    ensures { Reads (spec.constant_end ids indication value reader.old) result reader.new }
{
    let indication = Held::new(indication);
    let value = Held::new(value);
    reader.expect(SEMICOLON)?;
    Ok((ids, indication.into_inner(), value.into_inner()))
}

#[tactic(auto, unfolding(crate::specs::Parsing::constant_parts))]
fn constant_parts(
    alloc: Global,
    reader: &mut Reader<'_>,
    levels: u32,
) -> Result<(Items<Name>, SubtypeIndication, Expr), Stop>
    ensures { Reads (spec.constant_parts most_operators levels reader.old) result reader.new }
{
    let ids = names_colon(alloc, reader)?;
    let indication = Held::new(indication(alloc, reader, levels)?);
    reader.expect(TokenKind::Mark(Mark::Assign))?;
    let value = outermost(alloc, reader, levels)?;
    constant_end(reader, ids, indication.into_inner(), value)
}

#[tactic(auto, unfolding(crate::specs::Parsing::constant_declaration))]
fn constant_declaration(
    alloc: Global,
    reader: &mut Reader<'_>,
    levels: u32,
) -> Result<Declaration, Stop>
    ensures { Reads (spec.constant_declaration most_operators levels reader.old) result reader.new }
{
    let place = reader.expect(TokenKind::Word(Word::Constant))?;
    let (ids, indication, value) = constant_parts(alloc, reader, levels)?;
    Ok(Declaration::Constant(place, ids, indication, value))
}

#[tactic(auto, unfolding(crate::specs::Parsing::free_quantity))]
fn free_quantity(
    alloc: Global,
    reader: &mut Reader<'_>,
    levels: u32,
    place: Place,
    ids: Items<Name>,
) -> Result<Declaration, Stop>
    ensures { Reads (spec.free_quantity most_operators levels place ids reader.old) result reader.new }
{
    reader.expect(COLON)?;
    let indication = Held::new(indication(alloc, reader, levels)?);
    let value = Held::new(default(alloc, reader, levels)?);
    reader.expect(SEMICOLON)?;
    Ok(Declaration::Quantity(place, ids, indication.into_inner(), value.into_inner()))
}

#[tactic(auto, unfolding(crate::specs::Parsing::quantity_declaration))]
fn quantity_declaration(
    alloc: Global,
    reader: &mut Reader<'_>,
    levels: u32,
) -> Result<Declaration, Stop>
    ensures { Reads (spec.quantity_declaration most_operators levels reader.old) result reader.new }
{
    let place = reader.expect(TokenKind::Word(Word::Quantity))?;
    let ids = names(alloc, reader)?;
    if reader.at(COLON) {
        return free_quantity(alloc, reader, levels, place, ids);
    }
    if reader.at(TokenKind::Word(Word::Across)) {
        return across_branch(alloc, reader, place, ids);
    }
    through_branch(reader, place, ids)
}

#[tactic(auto, unfolding(crate::specs::Parsing::enumerated))]
fn enumerated(alloc: Global, reader: &mut Reader<'_>, levels: u32) -> Result<Items<Name>, Stop>
    ensures { Reads (spec.enumerated most_operators levels reader.old) result reader.new }
{
    reader.expect_within(TokenKind::Mark(Mark::LeftParen), levels > 0, 0)?;
    let literals = names(alloc, reader)?;
    reader.expect(TokenKind::Mark(Mark::RightParen))?;
    Ok(literals)
}

#[tactic(auto, unfolding(crate::specs::Parsing::enumeration_declaration))]
fn enumeration_declaration(
    alloc: Global,
    reader: &mut Reader<'_>,
    levels: u32,
) -> Result<Declaration, Stop>
    ensures { Reads (spec.enumeration_declaration most_operators levels reader.old) result reader.new }
{
    let place = reader.expect(TokenKind::Word(Word::Type))?;
    let found = name(reader)?;
    reader.expect(TokenKind::Word(Word::Is))?;
    let literals = enumerated(alloc, reader, levels)?;
    reader.expect(SEMICOLON)?;
    Ok(Declaration::Enumeration(place, found, literals))
}

#[tactic(auto, unfolding(crate::specs::Parsing::subtype_declaration))]
fn subtype_declaration(
    alloc: Global,
    reader: &mut Reader<'_>,
    levels: u32,
) -> Result<Declaration, Stop>
    ensures { Reads (spec.subtype_declaration most_operators levels reader.old) result reader.new }
{
    let place = reader.expect(TokenKind::Word(Word::Subtype))?;
    let found = name(reader)?;
    reader.expect(TokenKind::Word(Word::Is))?;
    let indication = Held::new(indication(alloc, reader, levels)?);
    reader.expect(SEMICOLON)?;
    Ok(Declaration::Subtype(place, found, indication.into_inner()))
}

/// A declaration, in which `levels` parentheses may be open.
#[tactic(auto, unfolding(crate::specs::Parsing::declaration))]
pub fn any_declaration(
    alloc: Global,
    reader: &mut Reader<'_>,
    levels: u32,
) -> Result<Declaration, Stop>
    ensures { Reads (spec.declaration most_operators levels reader.old) result reader.new }
{
    if reader.at(TokenKind::Word(Word::Signal)) {
        return signal_declaration(alloc, reader, levels);
    }
    if reader.at(TokenKind::Word(Word::Constant)) {
        return constant_declaration(alloc, reader, levels);
    }
    if reader.at(TokenKind::Word(Word::Terminal)) {
        return terminal_declaration(alloc, reader);
    }
    if reader.at(TokenKind::Word(Word::Quantity)) {
        return quantity_declaration(alloc, reader, levels);
    }
    if reader.at(TokenKind::Word(Word::Nature)) {
        return nature_declaration(reader);
    }
    if reader.at(TokenKind::Word(Word::Type)) {
        return enumeration_declaration(alloc, reader, levels);
    }
    subtype_declaration(alloc, reader, levels)
}

#[tactic(auto, unfolding(crate::specs::Parsing::variable_declaration))]
fn variable_declaration(
    alloc: Global,
    reader: &mut Reader<'_>,
    levels: u32,
) -> Result<ProcessDeclaration, Stop>
    ensures { Reads (spec.variable_declaration most_operators levels reader.old) result reader.new }
{
    let place = reader.expect(TokenKind::Word(Word::Variable))?;
    let ids = names_colon(alloc, reader)?;
    let indication = Held::new(indication(alloc, reader, levels)?);
    let value = Held::new(default(alloc, reader, levels)?);
    reader.expect(SEMICOLON)?;
    Ok(ProcessDeclaration::Variable(place, ids, indication.into_inner(), value.into_inner()))
}

#[tactic(auto, unfolding(crate::specs::Parsing::local_constant))]
fn local_constant(
    alloc: Global,
    reader: &mut Reader<'_>,
    levels: u32,
) -> Result<ProcessDeclaration, Stop>
    ensures { Reads (spec.local_constant most_operators levels reader.old) result reader.new }
{
    let place = reader.expect(TokenKind::Word(Word::Constant))?;
    let (ids, indication, value) = constant_parts(alloc, reader, levels)?;
    Ok(ProcessDeclaration::Constant(place, ids, indication, value))
}

/// A declaration of a process, in which `levels` parentheses may be open.
#[tactic(auto, unfolding(crate::specs::Parsing::process_declaration))]
pub fn process_declaration(
    alloc: Global,
    reader: &mut Reader<'_>,
    levels: u32,
) -> Result<ProcessDeclaration, Stop>
    ensures { Reads (spec.process_declaration most_operators levels reader.old) result reader.new }
{
    if reader.at(TokenKind::Word(Word::Variable)) {
        return variable_declaration(alloc, reader, levels);
    }
    local_constant(alloc, reader, levels)
}
