ghost use Rattle.std.specs.Prelude.{◌≡◌};
ghost use Rattle.ams_tree.specs.Terminals as terminals;
ghost use Rattle.parse_steps.specs.Reading as reading;
ghost use Rattle.parse_steps.specs.Reading.{Reads};
ghost use Rattle.parse_steps.specs.Reply.{most_operators};
ghost use Rattle.parse_parts.specs.Parsing as spec;

use crate::tokens::direction_of;
use ams_tree::{Direction, Range};
use held_value::Held;
use parse_expr::outermost_simple;
use parse_steps::{Reader, Stop};
use std::alloc::Global;

#[tactic(auto, using(parse_steps::proofs::Steps::terminal_seen))]
fn direction(reader: &mut Reader<'_>) -> Result<Direction, Stop>
    ensures { Reads (reading.one terminals.direction_of reader.old) result reader.new }
{
    let Some(direction) = direction_of(reader.peek()) else {
        return Err(Stop::Syntax(reader.left()));
    };
    reader.take(true, 0)?;
    Ok(direction)
}

/// Two bounds with their direction, in which `levels` parentheses may be open.
#[tactic(auto, using(parse_steps::proofs::Steps::terminal_seen), unfolding(crate::specs::Parsing::range))]
pub fn range(alloc: Global, reader: &mut Reader<'_>, levels: u32) -> Result<Range, Stop>
    ensures { Reads (spec.range most_operators levels reader.old) result reader.new }
{
    let left = Held::new(outermost_simple(alloc, reader, levels)?);
    let direction = direction(reader)?;
    let right = outermost_simple(alloc, reader, levels)?;
    Ok(Range {
        left: left.into_inner(),
        direction,
        right,
    })
}
