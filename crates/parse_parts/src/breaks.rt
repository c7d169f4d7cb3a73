ghost use Rattle.std.specs.Prelude.{◌≡◌};
ghost use Rattle.parse_steps.specs.Reading.{Reads};
ghost use Rattle.parse_steps.specs.Reply.{most_operators};
ghost use Rattle.parse_parts.specs.Parsing as spec;

use crate::tokens::begins_break;
use ams_token::{Mark, TokenKind, Word};
use ams_tree::{BreakElement, Expr};
use held_value::Held;
use parse_expr::{listed_name, outermost};
use parse_steps::{Reader, Stop};
use sqlite_items::Items;
use std::alloc::Global;

#[tactic(auto, using(parse_steps::proofs::Steps::terminal_seen), unfolding(crate::specs::Parsing::broken))]
fn broken(
    alloc: Global,
    reader: &mut Reader<'_>,
    levels: u32,
    selector: Option<Expr>,
) -> Result<BreakElement, Stop>
    ensures { Reads (spec.broken most_operators levels selector reader.old) result reader.new }
{
    let selector = Held::new(selector);
    let quantity = Held::new(listed_name(alloc, reader, levels)?);
    reader.expect(TokenKind::Mark(Mark::Arrow))?;
    let value = outermost(alloc, reader, levels)?;
    Ok(BreakElement {
        selector: selector.into_inner(),
        quantity: quantity.into_inner(),
        value,
    })
}

#[tactic(auto, using(parse_steps::proofs::Steps::terminal_seen), unfolding(crate::specs::Parsing::selected))]
fn selected(alloc: Global, reader: &mut Reader<'_>, levels: u32) -> Result<BreakElement, Stop>
    ensures { Reads (spec.selected most_operators levels reader.old) result reader.new }
{
    reader.expect(TokenKind::Word(Word::For))?;
    let selector = Held::new(listed_name(alloc, reader, levels)?);
    reader.expect(TokenKind::Word(Word::Use))?;
    broken(alloc, reader, levels, Some(selector.into_inner()))
}

#[tactic(auto, using(parse_steps::proofs::Steps::terminal_seen), unfolding(crate::specs::Parsing::break_element))]
fn break_element(alloc: Global, reader: &mut Reader<'_>, levels: u32) -> Result<BreakElement, Stop>
    ensures { Reads (spec.break_element most_operators levels reader.old) result reader.new }
{
    if reader.at(TokenKind::Word(Word::For)) {
        return selected(alloc, reader, levels);
    }
    broken(alloc, reader, levels, None)
}

#[tactic(auto, using(parse_steps::proofs::Steps::terminal_seen), unfolding(crate::specs::Parsing::more_breaks))]
fn more_breaks(
    alloc: Global,
    reader: &mut Reader<'_>,
    levels: u32,
    first: BreakElement,
) -> Result<Items<BreakElement>, Stop>
    ensures { Reads (spec.more_breaks most_operators levels first reader.old) result reader.new }
{
    let mut all = Items::new(alloc);
    all.push(first)?;
    for _turn in 0..reader.left() {
        if !reader.at(TokenKind::Mark(Mark::Comma)) {
            return Ok(all);
        }
        reader.expect(TokenKind::Mark(Mark::Comma))?;
        all.push(break_element(alloc, reader, levels)?)?;
    }
    Ok(all)
}

#[tactic(auto, using(parse_steps::proofs::Steps::terminal_seen), unfolding(crate::specs::Parsing::break_list))]
fn break_list(
    alloc: Global,
    reader: &mut Reader<'_>,
    levels: u32,
) -> Result<Items<BreakElement>, Stop>
    ensures { Reads (spec.break_list most_operators levels reader.old) result reader.new }
{
    let first = break_element(alloc, reader, levels)?;
    more_breaks(alloc, reader, levels, first)
}

/// What a break sets, where it is written.
#[tactic(auto, using(parse_steps::proofs::Steps::terminal_seen), unfolding(crate::specs::Parsing::break_elements))]
pub fn break_elements(
    alloc: Global,
    reader: &mut Reader<'_>,
    levels: u32,
) -> Result<Items<BreakElement>, Stop>
    ensures { Reads (spec.break_elements most_operators levels reader.old) result reader.new }
{
    if !begins_break(reader.peek()) {
        return Ok(Items::new(alloc));
    }
    break_list(alloc, reader, levels)
}
