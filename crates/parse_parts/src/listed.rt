ghost use Rattle.std.specs.Prelude.{◌≡◌};
ghost use Rattle.parse_steps.specs.Reading.{Reads};
ghost use Rattle.parse_steps.specs.Reply.{most_operators};
ghost use Rattle.parse_parts.specs.Parsing as spec;

use ams_token::{Mark, TokenKind, Word};
use ams_tree::Expr;
use parse_expr::listed_name;
use parse_steps::{Reader, Stop};
use sqlite_items::Items;
use std::alloc::Global;

/// The names behind a first one.
#[tactic(auto, using(parse_steps::proofs::Steps::terminal_seen), unfolding(crate::specs::Parsing::more_listed))]
fn more_listed(
    alloc: Global,
    reader: &mut Reader<'_>,
    levels: u32,
    first: Expr,
) -> Result<Items<Expr>, Stop>
    ensures { Reads (spec.more_listed most_operators levels first reader.old) result reader.new }
{
    let mut all = Items::new(alloc);
    all.push(first)?;
    for _turn in 0..reader.left() {
        if !reader.at(TokenKind::Mark(Mark::Comma)) {
            return Ok(all);
        }
        reader.expect(TokenKind::Mark(Mark::Comma))?;
        all.push(listed_name(alloc, reader, levels)?)?;
    }
    Ok(all)
}

/// Names with commas between them, which may be elements or attributes.
#[tactic(auto, using(parse_steps::proofs::Steps::terminal_seen), unfolding(crate::specs::Parsing::name_list))]
pub fn name_list(alloc: Global, reader: &mut Reader<'_>, levels: u32) -> Result<Items<Expr>, Stop>
    ensures { Reads (spec.name_list most_operators levels reader.old) result reader.new }
{
    let first = listed_name(alloc, reader, levels)?;
    more_listed(alloc, reader, levels, first)
}

/// The names behind `on`, where it is written.
#[tactic(auto, using(parse_steps::proofs::Steps::terminal_seen), unfolding(crate::specs::Parsing::names_on))]
pub fn names_on(alloc: Global, reader: &mut Reader<'_>, levels: u32) -> Result<Items<Expr>, Stop>
    ensures { Reads (spec.names_on most_operators levels reader.old) result reader.new }
{
    if !reader.at(TokenKind::Word(Word::On)) {
        return Ok(Items::new(alloc));
    }
    reader.expect(TokenKind::Word(Word::On))?;
    name_list(alloc, reader, levels)
}
