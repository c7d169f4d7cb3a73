//! Statements in which no other one stands.

ghost use Rattle.std.specs.Prelude.{◌≡◌};
ghost use Rattle.parse_steps.specs.Reading.{Reads};
ghost use Rattle.parse_steps.specs.Reply.{most_operators};
ghost use Rattle.parse_seq.specs.Parsing as spec;

use ams_token::{Mark, TokenKind, Word};
use ams_tree::{Expr, Name, Report, Seq};
use held_value::Held;
use parse_expr::{name_of, outermost};
use parse_parts::{
    assertion, break_elements, condition, maybe_delay, name, names_on, severity, string, waveform,
};
use parse_steps::{Reader, Stop};
use std::alloc::Global;

const SEMICOLON: TokenKind = TokenKind::Mark(Mark::Semicolon);

#[tactic(auto, using(parse_steps::proofs::Steps::terminal_seen), unfolding(crate::specs::Parsing::signal_assignment))]
fn signal_assignment(
    alloc: Global,
    reader: &mut Reader<'_>,
    levels: u32,
    target: Name,
) -> Result<Seq, Stop>
    ensures { Reads (spec.signal_assignment most_operators levels target reader.old) result reader.new }
{
    reader.expect(TokenKind::Mark(Mark::LessEqual))?;
    let delay = Held::new(maybe_delay(alloc, reader, levels)?);
    let waveform = waveform(alloc, reader, levels)?;
    reader.expect(SEMICOLON)?;
    Ok(Seq::Signal(target, delay.into_inner(), waveform))
}

#[tactic(auto, using(parse_steps::proofs::Steps::terminal_seen), unfolding(crate::specs::Parsing::variable_assignment))]
fn variable_assignment(
    alloc: Global,
    reader: &mut Reader<'_>,
    levels: u32,
    target: Name,
) -> Result<Seq, Stop>
    ensures { Reads (spec.variable_assignment most_operators levels target reader.old) result reader.new }
{
    reader.expect(TokenKind::Mark(Mark::Assign))?;
    let value = Held::new(outermost(alloc, reader, levels)?);
    reader.expect(SEMICOLON)?;
    Ok(Seq::Variable(target, value.into_inner()))
}

#[tactic(auto, using(parse_steps::proofs::Steps::terminal_seen), unfolding(crate::specs::Parsing::assignment))]
fn assignment(alloc: Global, reader: &mut Reader<'_>, levels: u32) -> Result<Seq, Stop>
    ensures { Reads (spec.assignment most_operators levels reader.old) result reader.new }
{
    let target = name(reader)?;
    if reader.at(TokenKind::Mark(Mark::LessEqual)) {
        return signal_assignment(alloc, reader, levels, target);
    }
    variable_assignment(alloc, reader, levels, target)
}

#[tactic(auto, using(parse_steps::proofs::Steps::terminal_seen), unfolding(crate::specs::Parsing::exit_statement))]
fn exit_statement(alloc: Global, reader: &mut Reader<'_>, levels: u32) -> Result<Seq, Stop>
    ensures { Reads (spec.exit_statement most_operators levels reader.old) result reader.new }
{
    let place = reader.expect(TokenKind::Word(Word::Exit))?;
    let condition = Held::new(condition(alloc, reader, levels)?);
    reader.expect(SEMICOLON)?;
    Ok(Seq::Exit(place, condition.into_inner()))
}

#[tactic(auto, using(parse_steps::proofs::Steps::terminal_seen), unfolding(crate::specs::Parsing::next_statement))]
fn next_statement(alloc: Global, reader: &mut Reader<'_>, levels: u32) -> Result<Seq, Stop>
    ensures { Reads (spec.next_statement most_operators levels reader.old) result reader.new }
{
    let place = reader.expect(TokenKind::Word(Word::Next))?;
    let condition = Held::new(condition(alloc, reader, levels)?);
    reader.expect(SEMICOLON)?;
    Ok(Seq::Next(place, condition.into_inner()))
}

/// The expression behind a word, where that word comes next.
#[tactic(auto, using(parse_steps::proofs::Steps::terminal_seen), unfolding(crate::specs::Parsing::behind))]
fn behind(
    alloc: Global,
    reader: &mut Reader<'_>,
    levels: u32,
    word: Word,
) -> Result<Option<Expr>, Stop>
    ensures { Reads (spec.behind most_operators levels word reader.old) result reader.new }
{
    if !reader.at(TokenKind::Word(word)) {
        return Ok(None);
    }
    reader.expect(TokenKind::Word(word))?;
    Ok(Some(outermost(alloc, reader, levels)?))
}

#[tactic(auto, using(parse_steps::proofs::Steps::terminal_seen), unfolding(crate::specs::Parsing::wait_statement))]
fn wait_statement(alloc: Global, reader: &mut Reader<'_>, levels: u32) -> Result<Seq, Stop>
    ensures { Reads (spec.wait_statement most_operators levels reader.old) result reader.new }
{
    let place = reader.expect(TokenKind::Word(Word::Wait))?;
    let names = names_on(alloc, reader, levels)?;
    let condition = Held::new(behind(alloc, reader, levels, Word::Until)?);
    let time = Held::new(behind(alloc, reader, levels, Word::For)?);
    reader.expect(SEMICOLON)?;
    Ok(Seq::Wait(place, names, condition.into_inner(), time.into_inner()))
}

#[tactic(auto, using(parse_steps::proofs::Steps::terminal_seen), unfolding(crate::specs::Parsing::report_statement))]
fn report_statement(reader: &mut Reader<'_>) -> Result<Seq, Stop>
    ensures { Reads (spec.report_statement reader.old) result reader.new }
{
    let place = reader.expect(TokenKind::Word(Word::Report))?;
    let text = string(reader)?;
    let severity = severity(reader)?;
    reader.expect(SEMICOLON)?;
    Ok(Seq::Report(place, Report { text, severity }))
}

#[tactic(auto, using(parse_steps::proofs::Steps::terminal_seen), unfolding(crate::specs::Parsing::break_statement))]
fn break_statement(alloc: Global, reader: &mut Reader<'_>, levels: u32) -> Result<Seq, Stop>
    ensures { Reads (spec.break_statement most_operators levels reader.old) result reader.new }
{
    let place = reader.expect(TokenKind::Word(Word::Break))?;
    let elements = break_elements(alloc, reader, levels)?;
    let condition = Held::new(condition(alloc, reader, levels)?);
    reader.expect(SEMICOLON)?;
    Ok(Seq::Break(place, elements, condition.into_inner()))
}

#[tactic(auto, using(parse_steps::proofs::Steps::terminal_seen), unfolding(crate::specs::Parsing::null_statement))]
fn null_statement(reader: &mut Reader<'_>) -> Result<Seq, Stop>
    ensures { Reads (spec.null_statement reader.old) result reader.new }
{
    let place = reader.expect(TokenKind::Word(Word::Null))?;
    reader.expect(SEMICOLON)?;
    Ok(Seq::Null(place))
}

#[tactic(auto, using(parse_steps::proofs::Steps::terminal_seen), unfolding(crate::specs::Parsing::simple_statement))]
pub fn simple_statement(alloc: Global, reader: &mut Reader<'_>, levels: u32) -> Result<Seq, Stop>
    ensures { Reads (spec.simple_statement most_operators levels reader.old) result reader.new }
{
    if name_of(reader.peek()).is_some() {
        return assignment(alloc, reader, levels);
    }
    if reader.at(TokenKind::Word(Word::Exit)) {
        return exit_statement(alloc, reader, levels);
    }
    if reader.at(TokenKind::Word(Word::Next)) {
        return next_statement(alloc, reader, levels);
    }
    if reader.at(TokenKind::Word(Word::Wait)) {
        return wait_statement(alloc, reader, levels);
    }
    if reader.at(TokenKind::Word(Word::Assert)) {
        return Ok(Seq::Assert(assertion(alloc, reader, levels)?));
    }
    if reader.at(TokenKind::Word(Word::Report)) {
        return report_statement(reader);
    }
    if reader.at(TokenKind::Word(Word::Break)) {
        return break_statement(alloc, reader, levels);
    }
    null_statement(reader)
}
