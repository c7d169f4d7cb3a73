ghost use Rattle.std.specs.Prelude.{◌≡◌};
ghost use Rattle.parse_steps.specs.Reading.{Reads};
ghost use Rattle.parse_steps.specs.Reply.{most_operators};
ghost use Rattle.parse_conc.specs.Parsing as spec;

use ams_token::{Mark, TokenKind, Word};
use ams_tree::{ConcurrentStatement, ConditionalWaveform, Expr, WaveformElement};
use held_value::Held;
use parse_expr::outermost;
use parse_parts::{maybe_delay, name, waveform};
use parse_steps::{Reader, Stop};
use sqlite_items::Items;
use std::alloc::Global;

/// The waveforms before an `else`, the last one, and its condition.
type Waveforms = (
    Items<ConditionalWaveform>,
    Items<WaveformElement>,
    Option<Expr>,
);

#[tactic(auto, using(parse_steps::proofs::Steps::terminal_seen), unfolding(crate::specs::Parsing::when_condition))]
fn when_condition(alloc: Global, reader: &mut Reader<'_>, levels: u32) -> Result<Expr, Stop>
    ensures { Reads (spec.when_condition most_operators levels reader.old) result reader.new }
{
    reader.expect(TokenKind::Word(Word::When))?;
    outermost(alloc, reader, levels)
}

#[tactic(auto, using(parse_steps::proofs::Steps::terminal_seen), unfolding(crate::specs::Parsing::else_waveform))]
fn else_waveform(
    alloc: Global,
    reader: &mut Reader<'_>,
    levels: u32,
) -> Result<Items<WaveformElement>, Stop>
    ensures { Reads (spec.else_waveform most_operators levels reader.old) result reader.new }
{
    reader.expect(TokenKind::Word(Word::Else))?;
    waveform(alloc, reader, levels)
}

/// What follows a first waveform. Behind a condition an `else` tells whether the waveform before it was the last.
#[tactic(auto, using(parse_steps::proofs::Steps::terminal_seen), unfolding(crate::specs::Parsing::more_waveforms))]
fn more_waveforms(
    alloc: Global,
    reader: &mut Reader<'_>,
    levels: u32,
    first: Items<WaveformElement>,
) -> Result<Waveforms, Stop>
    ensures { Reads (spec.more_waveforms most_operators levels first reader.old) result reader.new }
{
    let mut conditional = Items::new(alloc);
    let mut last = first;
    for _turn in 0..reader.left() {
        if !reader.at(TokenKind::Word(Word::When)) {
            return Ok((conditional, last, None));
        }
        let condition = Held::new(when_condition(alloc, reader, levels)?);
        if !reader.at(TokenKind::Word(Word::Else)) {
            return Ok((conditional, last, Some(condition.into_inner())));
        }
        let next = else_waveform(alloc, reader, levels)?;
        conditional.push(ConditionalWaveform {
            elements: last,
            condition: condition.into_inner(),
        })?;
        last = next;
    }
    Ok((conditional, last, None))
}

#[tactic(auto, using(parse_steps::proofs::Steps::terminal_seen), unfolding(crate::specs::Parsing::conditional_waveforms))]
fn conditional_waveforms(
    alloc: Global,
    reader: &mut Reader<'_>,
    levels: u32,
) -> Result<Waveforms, Stop>
    ensures { Reads (spec.conditional_waveforms most_operators levels reader.old) result reader.new }
{
    let first = waveform(alloc, reader, levels)?;
    more_waveforms(alloc, reader, levels, first)
}

/// An assignment to a signal.
#[tactic(auto, using(parse_steps::proofs::Steps::terminal_seen), unfolding(crate::specs::Parsing::concurrent_assignment))]
pub fn concurrent_assignment(
    alloc: Global,
    reader: &mut Reader<'_>,
    levels: u32,
) -> Result<ConcurrentStatement, Stop>
    ensures { Reads (spec.concurrent_assignment most_operators levels reader.old) result reader.new }
{
    let target = name(reader)?;
    reader.expect(TokenKind::Mark(Mark::LessEqual))?;
    let delay = Held::new(maybe_delay(alloc, reader, levels)?);
    let (conditional, last, condition) = conditional_waveforms(alloc, reader, levels)?;
    let condition = Held::new(condition);
    reader.expect(TokenKind::Mark(Mark::Semicolon))?;
    Ok(ConcurrentStatement::Assign(
        target,
        delay.into_inner(),
        conditional,
        last,
        condition.into_inner(),
    ))
}
