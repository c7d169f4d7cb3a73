ghost use Rattle.std.specs.Prelude.{◌≡◌};
ghost use Rattle.parse_steps.specs.Reading.{Reads};
ghost use Rattle.parse_steps.specs.Reply.{most_operators};
ghost use Rattle.parse_parts.specs.Parsing as spec;

use ams_token::{Mark, TokenKind, Word};
use ams_tree::Choice;
use parse_expr::outermost_simple;
use parse_steps::{Reader, Stop};
use sqlite_items::Items;
use std::alloc::Global;

#[tactic(auto, using(parse_steps::proofs::Steps::terminal_seen), unfolding(crate::specs::Parsing::one_choice))]
fn one_choice(alloc: Global, reader: &mut Reader<'_>, levels: u32) -> Result<Choice, Stop>
    ensures { Reads (spec.one_choice most_operators levels reader.old) result reader.new }
{
    if reader.at(TokenKind::Word(Word::Others)) {
        let place = reader.expect(TokenKind::Word(Word::Others))?;
        return Ok(Choice::Others(place));
    }
    Ok(Choice::Value(outermost_simple(alloc, reader, levels)?))
}

#[tactic(auto, using(parse_steps::proofs::Steps::terminal_seen), unfolding(crate::specs::Parsing::more_choices))]
fn more_choices(
    alloc: Global,
    reader: &mut Reader<'_>,
    levels: u32,
    first: Choice,
) -> Result<Items<Choice>, Stop>
    ensures { Reads (spec.more_choices most_operators levels first reader.old) result reader.new }
{
    let mut all = Items::new(alloc);
    all.push(first)?;
    for _turn in 0..reader.left() {
        if !reader.at(TokenKind::Mark(Mark::Bar)) {
            return Ok(all);
        }
        reader.expect(TokenKind::Mark(Mark::Bar))?;
        all.push(one_choice(alloc, reader, levels)?)?;
    }
    Ok(all)
}

/// The choices of an alternative, from `when` to the arrow.
#[tactic(auto, using(parse_steps::proofs::Steps::terminal_seen), unfolding(crate::specs::Parsing::choices))]
pub fn choices(alloc: Global, reader: &mut Reader<'_>, levels: u32) -> Result<Items<Choice>, Stop>
    ensures { Reads (spec.choices most_operators levels reader.old) result reader.new }
{
    reader.expect(TokenKind::Word(Word::When))?;
    let first = one_choice(alloc, reader, levels)?;
    let all = more_choices(alloc, reader, levels, first)?;
    reader.expect(TokenKind::Mark(Mark::Arrow))?;
    Ok(all)
}
