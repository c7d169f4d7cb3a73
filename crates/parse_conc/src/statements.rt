ghost use Rattle.std.specs.Prelude.{◌≡◌};
ghost use Rattle.parse_steps.specs.Reading.{Reads};
ghost use Rattle.parse_steps.specs.Reply.{most_operators};
ghost use Rattle.parse_conc.specs.Parsing as spec;

use crate::assignments::concurrent_assignment;
use crate::breaks::concurrent_break;
use crate::equations::equation;
use crate::instances::instance;
use crate::processes::process_parts;
use crate::simultaneous::{simultaneous_case, simultaneous_if};
use crate::tokens::name_then;
use ams_token::{Mark, TokenKind, Word};
use ams_tree::{Concurrent, ConcurrentStatement};
use parse_parts::{assertion, name};
use parse_steps::{Reader, Stop};
use std::alloc::Global;

#[tactic(auto, using(parse_steps::proofs::Steps::terminal_seen), unfolding(crate::specs::Parsing::assignment_or_equation))]
fn assignment_or_equation(
    alloc: Global,
    reader: &mut Reader<'_>,
    levels: u32,
) -> Result<ConcurrentStatement, Stop>
    ensures { Reads (spec.assignment_or_equation most_operators levels reader.old) result reader.new }
{
    if name_then(reader, Mark::LessEqual) {
        return concurrent_assignment(alloc, reader, levels);
    }
    Ok(ConcurrentStatement::Equation(equation(alloc, reader, levels)?))
}

#[tactic(auto, using(parse_steps::proofs::Steps::terminal_seen), unfolding(crate::specs::Parsing::unlabelled))]
fn unlabelled(
    alloc: Global,
    reader: &mut Reader<'_>,
    levels: u32,
) -> Result<ConcurrentStatement, Stop>
    ensures { Reads (spec.unlabelled most_operators levels reader.old) result reader.new }
{
    if reader.at(TokenKind::Word(Word::Process)) {
        let place = reader.expect_within(TokenKind::Word(Word::Process), levels > 0, 0)?;
        return process_parts(alloc, reader, levels.saturating_sub(1), place);
    }
    if reader.at(TokenKind::Word(Word::If)) {
        let place = reader.expect_within(TokenKind::Word(Word::If), levels > 0, 0)?;
        return simultaneous_if(alloc, reader, levels.saturating_sub(1), place);
    }
    if reader.at(TokenKind::Word(Word::Case)) {
        let place = reader.expect_within(TokenKind::Word(Word::Case), levels > 0, 0)?;
        return simultaneous_case(alloc, reader, levels.saturating_sub(1), place);
    }
    if reader.at(TokenKind::Word(Word::Assert)) {
        return Ok(ConcurrentStatement::Assert(assertion(alloc, reader, levels)?));
    }
    if reader.at(TokenKind::Word(Word::Break)) {
        return concurrent_break(alloc, reader, levels);
    }
    assignment_or_equation(alloc, reader, levels)
}

#[tactic(auto, using(parse_steps::proofs::Steps::terminal_seen), unfolding(crate::specs::Parsing::labelled_statement))]
fn labelled_statement(
    alloc: Global,
    reader: &mut Reader<'_>,
    levels: u32,
) -> Result<ConcurrentStatement, Stop>
    ensures { Reads (spec.labelled_statement most_operators levels reader.old) result reader.new }
{
    if reader.at(TokenKind::Word(Word::Entity)) {
        return instance(alloc, reader, levels);
    }
    unlabelled(alloc, reader, levels)
}

#[tactic(auto, using(parse_steps::proofs::Steps::terminal_seen), unfolding(crate::specs::Parsing::labelled))]
fn labelled(alloc: Global, reader: &mut Reader<'_>, levels: u32) -> Result<Concurrent, Stop>
    ensures { Reads (spec.labelled most_operators levels reader.old) result reader.new }
{
    let label = name(reader)?;
    reader.expect(TokenKind::Mark(Mark::Colon))?;
    let statement = labelled_statement(alloc, reader, levels)?;
    Ok(Concurrent {
        label: Some(label),
        statement,
    })
}

/// A concurrent statement, in which `levels` may be open.
#[tactic(auto, using(parse_steps::proofs::Steps::terminal_seen), unfolding(crate::specs::Parsing::concurrent))]
pub fn any_concurrent(
    alloc: Global,
    reader: &mut Reader<'_>,
    levels: u32,
) -> Result<Concurrent, Stop>
    ensures { Reads (spec.concurrent most_operators levels reader.old) result reader.new }
{
    if name_then(reader, Mark::Colon) {
        return labelled(alloc, reader, levels);
    }
    let statement = unlabelled(alloc, reader, levels)?;
    Ok(Concurrent {
        label: None,
        statement,
    })
}
