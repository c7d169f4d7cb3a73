ghost use Rattle.std.specs.Prelude.{◌≡◌};
ghost use Rattle.parse_steps.specs.Reading.{Reads};
ghost use Rattle.parse_steps.specs.Reply.{most_operators};
ghost use Rattle.parse_conc.specs.Parsing as spec;

use ams_token::{Mark, Place, TokenKind, Word};
use ams_tree::{ConcurrentStatement, Expr, Name, Process, ProcessDeclaration, Seq};
use held_value::Held;
use parse_decl::{begins_process_declaration, process_declaration, word_said};
use parse_expr::name_of;
use parse_parts::{name, name_list};
use parse_seq::{any_statement, begins_statement};
use parse_steps::{Reader, Stop};
use sqlite_items::Items;
use std::alloc::Global;

#[tactic(auto, using(parse_steps::proofs::Steps::terminal_seen), unfolding(crate::specs::Parsing::sensitivity))]
fn sensitivity(alloc: Global, reader: &mut Reader<'_>, levels: u32) -> Result<Items<Expr>, Stop>
    ensures { Reads (spec.sensitivity most_operators levels reader.old) result reader.new }
{
    reader.expect_within(TokenKind::Mark(Mark::LeftParen), levels > 0, 0)?;
    let all = name_list(alloc, reader, levels.saturating_sub(1))?;
    reader.expect(TokenKind::Mark(Mark::RightParen))?;
    Ok(all)
}

#[tactic(auto, using(parse_steps::proofs::Steps::terminal_seen), unfolding(crate::specs::Parsing::maybe_sensitivity))]
fn maybe_sensitivity(
    alloc: Global,
    reader: &mut Reader<'_>,
    levels: u32,
) -> Result<Option<Items<Expr>>, Stop>
    ensures { Reads (spec.maybe_sensitivity most_operators levels reader.old) result reader.new }
{
    if !reader.at(TokenKind::Mark(Mark::LeftParen)) {
        return Ok(None);
    }
    Ok(Some(sensitivity(alloc, reader, levels)?))
}

#[tactic(auto, using(parse_steps::proofs::Steps::terminal_seen), unfolding(crate::specs::Parsing::declarations))]
fn declarations(
    alloc: Global,
    reader: &mut Reader<'_>,
    levels: u32,
) -> Result<Items<ProcessDeclaration>, Stop>
    ensures { Reads (spec.declarations most_operators levels reader.old) result reader.new }
{
    let mut all = Items::new(alloc);
    for _turn in 0..reader.left() {
        if !begins_process_declaration(reader.peek()) {
            return Ok(all);
        }
        all.push(process_declaration(alloc, reader, levels)?)?;
    }
    Ok(all)
}

#[tactic(auto, using(parse_steps::proofs::Steps::terminal_seen), unfolding(crate::specs::Parsing::process_head))]
fn process_head(
    alloc: Global,
    reader: &mut Reader<'_>,
    levels: u32,
) -> Result<(Option<Items<Expr>>, bool, Items<ProcessDeclaration>), Stop>
    ensures { Reads (spec.process_head most_operators levels reader.old) result reader.new }
{
    let names = Held::new(maybe_sensitivity(alloc, reader, levels)?);
    let word_is = word_said(reader, Word::Is)?;
    let locals = declarations(alloc, reader, levels)?;
    reader.expect(TokenKind::Word(Word::Begin))?;
    Ok((names.into_inner(), word_is, locals))
}

#[tactic(auto, using(parse_steps::proofs::Steps::terminal_seen), unfolding(crate::specs::Parsing::statements))]
fn statements(alloc: Global, reader: &mut Reader<'_>, levels: u32) -> Result<Items<Seq>, Stop>
    ensures { Reads (spec.statements most_operators levels reader.old) result reader.new }
{
    let mut all = Items::new(alloc);
    for _turn in 0..reader.left() {
        if !begins_statement(reader.peek()) {
            return Ok(all);
        }
        all.push(any_statement(alloc, reader, levels)?)?;
    }
    Ok(all)
}

#[tactic(auto, using(parse_steps::proofs::Steps::terminal_seen), unfolding(crate::specs::Parsing::maybe_name))]
fn maybe_name(reader: &mut Reader<'_>) -> Result<Option<Name>, Stop>
    ensures { Reads (spec.maybe_name reader.old) result reader.new }
{
    if name_of(reader.peek()).is_none() {
        return Ok(None);
    }
    Ok(Some(name(reader)?))
}

#[tactic(auto, using(parse_steps::proofs::Steps::terminal_seen), unfolding(crate::specs::Parsing::process_body))]
fn process_body(
    alloc: Global,
    reader: &mut Reader<'_>,
    levels: u32,
) -> Result<(Items<Seq>, Option<Name>), Stop>
    ensures { Reads (spec.process_body most_operators levels reader.old) result reader.new }
{
    let all = statements(alloc, reader, levels)?;
    reader.expect(TokenKind::Word(Word::End))?;
    reader.expect(TokenKind::Word(Word::Process))?;
    let end = maybe_name(reader)?;
    reader.expect(TokenKind::Mark(Mark::Semicolon))?;
    Ok((all, end))
}

/// A process, behind its first word.
#[tactic(auto, using(parse_steps::proofs::Steps::terminal_seen), unfolding(crate::specs::Parsing::process_parts))]
pub fn process_parts(
    alloc: Global,
    reader: &mut Reader<'_>,
    levels: u32,
    place: Place,
) -> Result<ConcurrentStatement, Stop>
    ensures { Reads (spec.process_parts most_operators levels place reader.old) result reader.new }
{
    let (sensitivity, word_is, declarations) = process_head(alloc, reader, levels)?;
    let sensitivity = Held::new(sensitivity);
    let (body, end) = process_body(alloc, reader, levels)?;
    Ok(ConcurrentStatement::Process(Process {
        place,
        sensitivity: sensitivity.into_inner(),
        word_is,
        declarations,
        body,
        end,
    }))
}
