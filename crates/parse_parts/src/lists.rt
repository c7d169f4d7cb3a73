ghost use Rattle.std.specs.Prelude.{◌≡◌};
ghost use Rattle.ams_tree.specs.Terminals as terminals;
ghost use Rattle.parse_steps.specs.Reading as reading;
ghost use Rattle.parse_steps.specs.Reading.{Reads};
ghost use Rattle.parse_parts.specs.Parsing as spec;

use ams_token::{Mark, TokenKind, Word};
use ams_tree::Name;
use parse_expr::name_of;
use parse_steps::{Reader, Stop};
use sqlite_items::Items;
use std::alloc::Global;

const COMMA: TokenKind = TokenKind::Mark(Mark::Comma);

/// An identifier.
#[tactic(auto, using(parse_steps::proofs::Steps::terminal_seen))]
pub fn name(reader: &mut Reader<'_>) -> Result<Name, Stop>
    ensures { Reads (reading.one terminals.name_of reader.old) result reader.new }
{
    let Some(name) = name_of(reader.peek()) else {
        return Err(Stop::Syntax(reader.left()));
    };
    reader.take(true, 0)?;
    Ok(name)
}

/// The identifiers behind a first one.
#[tactic(auto, using(parse_steps::proofs::Steps::terminal_seen), unfolding(crate::specs::Parsing::more_names))]
pub fn more_names(alloc: Global, reader: &mut Reader<'_>, first: Name) -> Result<Items<Name>, Stop>
    ensures { Reads (spec.more_names first reader.old) result reader.new }
{
    let mut all = Items::new(alloc);
    all.push(first)?;
    for _turn in 0..reader.left() {
        if !reader.at(COMMA) {
            return Ok(all);
        }
        reader.expect(COMMA)?;
        all.push(name(reader)?)?;
    }
    Ok(all)
}

/// Identifiers with commas between them.
#[tactic(auto, using(parse_steps::proofs::Steps::terminal_seen), unfolding(crate::specs::Parsing::names))]
pub fn names(alloc: Global, reader: &mut Reader<'_>) -> Result<Items<Name>, Stop>
    ensures { Reads (spec.names reader.old) result reader.new }
{
    let first = name(reader)?;
    more_names(alloc, reader, first)
}

/// A word, and the identifier behind it.
#[tactic(auto, using(parse_steps::proofs::Steps::terminal_seen), unfolding(crate::specs::Parsing::name_after))]
pub fn name_after(reader: &mut Reader<'_>, word: Word) -> Result<Name, Stop>
    ensures { Reads (spec.name_after word reader.old) result reader.new }
{
    reader.expect(TokenKind::Word(word))?;
    name(reader)
}
