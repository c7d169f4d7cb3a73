ghost use Rattle.std.specs.Prelude.{◌≡◌};
ghost use Rattle.parse_steps.specs.Reading.{Reads};
ghost use Rattle.parse_steps.specs.Reply.{most_operators};
ghost use Rattle.parse_conc.specs.Parsing as spec;

use crate::tokens::begins_expression;
use ams_token::{Mark, TokenKind};
use ams_tree::Equation;
use held_value::Held;
use parse_expr::outermost_simple;
use parse_steps::{Reader, Stop};
use sqlite_items::Items;
use std::alloc::Global;

/// A simple simultaneous statement.
#[tactic(auto, using(parse_steps::proofs::Steps::terminal_seen), unfolding(crate::specs::Parsing::equation))]
pub fn equation(alloc: Global, reader: &mut Reader<'_>, levels: u32) -> Result<Equation, Stop>
    ensures { Reads (spec.equation most_operators levels reader.old) result reader.new }
{
    let left = Held::new(outermost_simple(alloc, reader, levels)?);
    reader.expect(TokenKind::Mark(Mark::DoubleEqual))?;
    let right = Held::new(outermost_simple(alloc, reader, levels)?);
    reader.expect(TokenKind::Mark(Mark::Semicolon))?;
    Ok(Equation {
        left: left.into_inner(),
        right: right.into_inner(),
    })
}

/// Simple simultaneous statements, as many as there are.
#[tactic(auto, using(parse_steps::proofs::Steps::terminal_seen), unfolding(crate::specs::Parsing::equations))]
pub fn equations(
    alloc: Global,
    reader: &mut Reader<'_>,
    levels: u32,
) -> Result<Items<Equation>, Stop>
    ensures { Reads (spec.equations most_operators levels reader.old) result reader.new }
{
    let mut all = Items::new(alloc);
    for _turn in 0..reader.left() {
        if !begins_expression(reader.peek()) {
            return Ok(all);
        }
        all.push(equation(alloc, reader, levels)?)?;
    }
    Ok(all)
}
