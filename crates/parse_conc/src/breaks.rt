ghost use Rattle.std.specs.Prelude.{◌≡◌};
ghost use Rattle.parse_steps.specs.Reading.{Reads};
ghost use Rattle.parse_steps.specs.Reply.{most_operators};
ghost use Rattle.parse_conc.specs.Parsing as spec;

use ams_token::{Mark, TokenKind, Word};
use ams_tree::ConcurrentStatement;
use held_value::Held;
use parse_parts::{break_elements, condition, names_on};
use parse_steps::{Reader, Stop};
use std::alloc::Global;

/// A break.
#[tactic(auto, using(parse_steps::proofs::Steps::terminal_seen), unfolding(crate::specs::Parsing::concurrent_break))]
pub fn concurrent_break(
    alloc: Global,
    reader: &mut Reader<'_>,
    levels: u32,
) -> Result<ConcurrentStatement, Stop>
    ensures { Reads (spec.concurrent_break most_operators levels reader.old) result reader.new }
{
    let place = reader.expect(TokenKind::Word(Word::Break))?;
    let elements = break_elements(alloc, reader, levels)?;
    let names = names_on(alloc, reader, levels)?;
    let condition = Held::new(condition(alloc, reader, levels)?);
    reader.expect(TokenKind::Mark(Mark::Semicolon))?;
    Ok(ConcurrentStatement::Break(place, elements, names, condition.into_inner()))
}
