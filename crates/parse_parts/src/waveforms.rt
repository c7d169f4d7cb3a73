ghost use Rattle.std.specs.Prelude.{◌≡◌};
ghost use Rattle.parse_steps.specs.Reading.{Reads};
ghost use Rattle.parse_steps.specs.Reply.{most_operators};
ghost use Rattle.parse_parts.specs.Parsing as spec;

use crate::tokens::begins_delay;
use ams_token::{Mark, TokenKind, Word};
use ams_tree::{DelayMechanism, Expr, WaveformElement};
use held_value::Held;
use parse_expr::outermost;
use parse_steps::{Reader, Stop};
use sqlite_items::Items;
use std::alloc::Global;

#[tactic(auto, using(parse_steps::proofs::Steps::terminal_seen), unfolding(crate::specs::Parsing::rejection))]
fn rejection(alloc: Global, reader: &mut Reader<'_>, levels: u32) -> Result<DelayMechanism, Stop>
    ensures { Reads (spec.rejection most_operators levels reader.old) result reader.new }
{
    let place = reader.expect(TokenKind::Word(Word::Reject))?;
    let limit = Held::new(outermost(alloc, reader, levels)?);
    reader.expect(TokenKind::Word(Word::Inertial))?;
    Ok(DelayMechanism::Reject(place, limit.into_inner()))
}

/// How a signal takes its new values.
#[tactic(auto, using(parse_steps::proofs::Steps::terminal_seen), unfolding(crate::specs::Parsing::delay_mechanism))]
pub fn delay_mechanism(
    alloc: Global,
    reader: &mut Reader<'_>,
    levels: u32,
) -> Result<DelayMechanism, Stop>
    ensures { Reads (spec.delay_mechanism most_operators levels reader.old) result reader.new }
{
    if reader.at(TokenKind::Word(Word::Transport)) {
        let place = reader.expect(TokenKind::Word(Word::Transport))?;
        return Ok(DelayMechanism::Transport(place));
    }
    if reader.at(TokenKind::Word(Word::Reject)) {
        return rejection(alloc, reader, levels);
    }
    let place = reader.expect(TokenKind::Word(Word::Inertial))?;
    Ok(DelayMechanism::Inertial(place))
}

/// A delay, where one is written.
#[tactic(auto, using(parse_steps::proofs::Steps::terminal_seen), unfolding(crate::specs::Parsing::maybe_delay))]
pub fn maybe_delay(
    alloc: Global,
    reader: &mut Reader<'_>,
    levels: u32,
) -> Result<Option<DelayMechanism>, Stop>
    ensures { Reads (spec.maybe_delay most_operators levels reader.old) result reader.new }
{
    if !begins_delay(reader.peek()) {
        return Ok(None);
    }
    Ok(Some(delay_mechanism(alloc, reader, levels)?))
}

#[tactic(auto, using(parse_steps::proofs::Steps::terminal_seen), unfolding(crate::specs::Parsing::after))]
fn after(alloc: Global, reader: &mut Reader<'_>, levels: u32) -> Result<Option<Expr>, Stop>
    ensures { Reads (spec.after most_operators levels reader.old) result reader.new }
{
    if !reader.at(TokenKind::Word(Word::After)) {
        return Ok(None);
    }
    reader.expect(TokenKind::Word(Word::After))?;
    Ok(Some(outermost(alloc, reader, levels)?))
}

#[tactic(auto, using(parse_steps::proofs::Steps::terminal_seen), unfolding(crate::specs::Parsing::waveform_element))]
fn waveform_element(
    alloc: Global,
    reader: &mut Reader<'_>,
    levels: u32,
) -> Result<WaveformElement, Stop>
    ensures { Reads (spec.waveform_element most_operators levels reader.old) result reader.new }
{
    let value = Held::new(outermost(alloc, reader, levels)?);
    let after = after(alloc, reader, levels)?;
    Ok(WaveformElement {
        value: value.into_inner(),
        after,
    })
}

#[tactic(auto, using(parse_steps::proofs::Steps::terminal_seen), unfolding(crate::specs::Parsing::more_elements))]
fn more_elements(
    alloc: Global,
    reader: &mut Reader<'_>,
    levels: u32,
    first: WaveformElement,
) -> Result<Items<WaveformElement>, Stop>
    ensures { Reads (spec.more_elements most_operators levels first reader.old) result reader.new }
{
    let mut all = Items::new(alloc);
    all.push(first)?;
    for _turn in 0..reader.left() {
        if !reader.at(TokenKind::Mark(Mark::Comma)) {
            return Ok(all);
        }
        reader.expect(TokenKind::Mark(Mark::Comma))?;
        all.push(waveform_element(alloc, reader, levels)?)?;
    }
    Ok(all)
}

/// Values with commas between them, each with its delay, where one is written.
#[tactic(auto, using(parse_steps::proofs::Steps::terminal_seen), unfolding(crate::specs::Parsing::waveform))]
pub fn waveform(
    alloc: Global,
    reader: &mut Reader<'_>,
    levels: u32,
) -> Result<Items<WaveformElement>, Stop>
    ensures { Reads (spec.waveform most_operators levels reader.old) result reader.new }
{
    let first = waveform_element(alloc, reader, levels)?;
    more_elements(alloc, reader, levels, first)
}
