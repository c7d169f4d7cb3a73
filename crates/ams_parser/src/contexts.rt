//! Selected names, context clauses, and how a unit ends.

ghost use Rattle.std.specs.Prelude.{◌≡◌};
ghost use Rattle.parse_steps.specs.Reading.{Reads};
ghost use Rattle.ams_parser.specs.Parsing as spec;

use ams_token::{Mark, TokenKind, Word};
use ams_tree::{DesignUnit, Name, Path};
use parse_decl::word_said;
use parse_expr::name_of;
use parse_parts::{name, names};
use parse_steps::{Reader, Stop};
use sqlite_items::Items;
use std::alloc::Global;

const COMMA: TokenKind = TokenKind::Mark(Mark::Comma);

const POINT: TokenKind = TokenKind::Mark(Mark::Point);

const SEMICOLON: TokenKind = TokenKind::Mark(Mark::Semicolon);

#[tactic(auto, unfolding(crate::specs::Parsing::prefix_name))]
fn prefix_name(reader: &mut Reader<'_>) -> Result<Name, Stop>
    ensures { Reads (spec.prefix_name reader.old) result reader.new }
{
    let found = name(reader)?;
    reader.expect(POINT)?;
    Ok(found)
}

#[tactic(auto, unfolding(crate::specs::Parsing::all_of))]
fn all_of(reader: &mut Reader<'_>, names: Items<Name>) -> Result<Path, Stop>
    ensures { Reads (spec.all_of names reader.old) result reader.new }
{
    reader.expect(TokenKind::Word(Word::All))?;
    Ok(Path { names, all: true })
}

#[tactic(auto, using(parse_steps::proofs::Steps::terminal_seen), unfolding(crate::specs::Parsing::path_end))]
fn path_end(reader: &mut Reader<'_>, mut names: Items<Name>) -> Result<Path, Stop>
    ensures { Reads (spec.path_end names reader.old) result reader.new }
{
    let Some(name) = name_of(reader.peek()) else {
        return all_of(reader, names);
    };
    reader.take(true, 0)?;
    names.push(name)?;
    Ok(Path { names, all: false })
}

#[tactic(auto, using(parse_steps::proofs::Steps::terminal_seen), unfolding(crate::specs::Parsing::rest_of_path))]
fn rest_of_path(alloc: Global, reader: &mut Reader<'_>, first: Name) -> Result<Path, Stop>
    ensures { Reads (spec.rest_of_path first reader.old) result reader.new }
{
    let mut names = Items::new(alloc);
    names.push(first)?;
    for _turn in 0..reader.left() {
        let Some(name) = name_of(reader.peek()) else {
            return all_of(reader, names);
        };
        reader.take(true, 0)?;
        names.push(name)?;
        if !reader.at(POINT) {
            return Ok(Path { names, all: false });
        }
        reader.expect(POINT)?;
    }
    path_end(reader, names)
}

#[tactic(auto, unfolding(crate::specs::Parsing::path))]
fn path(alloc: Global, reader: &mut Reader<'_>) -> Result<Path, Stop>
    ensures { Reads (spec.path reader.old) result reader.new }
{
    let first = prefix_name(reader)?;
    rest_of_path(alloc, reader, first)
}

#[tactic(auto, using(parse_steps::proofs::Steps::terminal_seen), unfolding(crate::specs::Parsing::some_name))]
fn some_name(reader: &mut Reader<'_>) -> Result<Option<Name>, Stop>
    ensures { Reads (spec.some_name reader.old) result reader.new }
{
    let Some(name) = name_of(reader.peek()) else {
        return Ok(None);
    };
    reader.take(true, 0)?;
    Ok(Some(name))
}

/// The end of a unit that begins with this word. Answers whether the word is said again, and the name.
#[tactic(auto, unfolding(crate::specs::Parsing::unit_end))]
pub fn unit_end(reader: &mut Reader<'_>, word: Word) -> Result<(bool, Option<Name>), Stop>
    ensures { Reads (spec.unit_end word reader.old) result reader.new }
{
    reader.expect(TokenKind::Word(Word::End))?;
    let said = word_said(reader, word)?;
    let again = some_name(reader)?;
    reader.expect(SEMICOLON)?;
    Ok((said, again))
}

#[tactic(auto, unfolding(crate::specs::Parsing::library_clause))]
pub fn library_clause(alloc: Global, reader: &mut Reader<'_>) -> Result<DesignUnit, Stop>
    ensures { Reads (spec.library_clause reader.old) result reader.new }
{
    reader.expect(TokenKind::Word(Word::Library))?;
    let ids = names(alloc, reader)?;
    reader.expect(SEMICOLON)?;
    Ok(DesignUnit::Library(ids))
}

#[tactic(auto, unfolding(crate::specs::Parsing::more_paths))]
fn more_paths(alloc: Global, reader: &mut Reader<'_>, first: Path) -> Result<Items<Path>, Stop>
    ensures { Reads (spec.more_paths first reader.old) result reader.new }
{
    let mut all = Items::new(alloc);
    all.push(first)?;
    for _turn in 0..reader.left() {
        if !reader.at(COMMA) {
            return Ok(all);
        }
        reader.expect(COMMA)?;
        all.push(path(alloc, reader)?)?;
    }
    Ok(all)
}

#[tactic(auto, unfolding(crate::specs::Parsing::use_clause))]
pub fn use_clause(alloc: Global, reader: &mut Reader<'_>) -> Result<DesignUnit, Stop>
    ensures { Reads (spec.use_clause reader.old) result reader.new }
{
    reader.expect(TokenKind::Word(Word::Use))?;
    let first = path(alloc, reader)?;
    let all = more_paths(alloc, reader, first)?;
    reader.expect(SEMICOLON)?;
    Ok(DesignUnit::Use(all))
}
