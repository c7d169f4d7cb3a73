ghost use Rattle.std.specs.Prelude.{◌≡◌};
ghost use Rattle.parse_steps.specs.Reading.{Reads};
ghost use Rattle.parse_steps.specs.Reply.{most_operators};
ghost use Rattle.parse_conc.specs.Parsing as spec;

use crate::equations::equations;
use ams_token::{Place, TokenKind, Word};
use ams_tree::{ConcurrentStatement, Equation, SimultaneousAlternative, SimultaneousBranch};
use held_value::Held;
use parse_expr::outermost;
use parse_parts::{choices, ending};
use parse_steps::{Reader, Stop};
use sqlite_items::Items;
use std::alloc::Global;

#[tactic(auto, using(parse_steps::proofs::Steps::terminal_seen), unfolding(crate::specs::Parsing::simultaneous_branch))]
fn simultaneous_branch(
    alloc: Global,
    reader: &mut Reader<'_>,
    levels: u32,
) -> Result<SimultaneousBranch, Stop>
    ensures { Reads (spec.simultaneous_branch most_operators levels reader.old) result reader.new }
{
    let condition = Held::new(outermost(alloc, reader, levels)?);
    reader.expect(TokenKind::Word(Word::Use))?;
    let equations = equations(alloc, reader, levels)?;
    Ok(SimultaneousBranch {
        condition: condition.into_inner(),
        equations,
    })
}

#[tactic(auto, using(parse_steps::proofs::Steps::terminal_seen), unfolding(crate::specs::Parsing::more_branches))]
fn more_branches(
    alloc: Global,
    reader: &mut Reader<'_>,
    levels: u32,
    first: SimultaneousBranch,
) -> Result<Items<SimultaneousBranch>, Stop>
    ensures { Reads (spec.more_branches most_operators levels first reader.old) result reader.new }
{
    let mut all = Items::new(alloc);
    all.push(first)?;
    for _turn in 0..reader.left() {
        if !reader.at(TokenKind::Word(Word::Elsif)) {
            return Ok(all);
        }
        reader.expect(TokenKind::Word(Word::Elsif))?;
        all.push(simultaneous_branch(alloc, reader, levels)?)?;
    }
    Ok(all)
}

#[tactic(auto, using(parse_steps::proofs::Steps::terminal_seen), unfolding(crate::specs::Parsing::other_equations))]
fn other_equations(
    alloc: Global,
    reader: &mut Reader<'_>,
    levels: u32,
) -> Result<Option<Items<Equation>>, Stop>
    ensures { Reads (spec.other_equations most_operators levels reader.old) result reader.new }
{
    if !reader.at(TokenKind::Word(Word::Else)) {
        return Ok(None);
    }
    reader.expect(TokenKind::Word(Word::Else))?;
    Ok(Some(equations(alloc, reader, levels)?))
}

/// A simultaneous if, behind its first word.
#[tactic(auto, using(parse_steps::proofs::Steps::terminal_seen), unfolding(crate::specs::Parsing::simultaneous_if))]
pub fn simultaneous_if(
    alloc: Global,
    reader: &mut Reader<'_>,
    levels: u32,
    place: Place,
) -> Result<ConcurrentStatement, Stop>
    ensures { Reads (spec.simultaneous_if most_operators levels place reader.old) result reader.new }
{
    let first = simultaneous_branch(alloc, reader, levels)?;
    let all = more_branches(alloc, reader, levels, first)?;
    let other = Held::new(other_equations(alloc, reader, levels)?);
    ending(reader, Word::Use)?;
    Ok(ConcurrentStatement::If(place, all, other.into_inner()))
}

#[tactic(auto, using(parse_steps::proofs::Steps::terminal_seen), unfolding(crate::specs::Parsing::simultaneous_alternative))]
fn simultaneous_alternative(
    alloc: Global,
    reader: &mut Reader<'_>,
    levels: u32,
) -> Result<SimultaneousAlternative, Stop>
    ensures { Reads (spec.simultaneous_alternative most_operators levels reader.old) result reader.new }
{
    let choices = choices(alloc, reader, levels)?;
    let equations = equations(alloc, reader, levels)?;
    Ok(SimultaneousAlternative { choices, equations })
}

#[tactic(auto, using(parse_steps::proofs::Steps::terminal_seen), unfolding(crate::specs::Parsing::more_alternatives))]
fn more_alternatives(
    alloc: Global,
    reader: &mut Reader<'_>,
    levels: u32,
    first: SimultaneousAlternative,
) -> Result<Items<SimultaneousAlternative>, Stop>
    ensures { Reads (spec.more_alternatives most_operators levels first reader.old) result reader.new }
{
    let mut all = Items::new(alloc);
    all.push(first)?;
    for _turn in 0..reader.left() {
        if !reader.at(TokenKind::Word(Word::When)) {
            return Ok(all);
        }
        all.push(simultaneous_alternative(alloc, reader, levels)?)?;
    }
    Ok(all)
}

#[tactic(auto, using(parse_steps::proofs::Steps::terminal_seen), unfolding(crate::specs::Parsing::simultaneous_alternatives))]
fn simultaneous_alternatives(
    alloc: Global,
    reader: &mut Reader<'_>,
    levels: u32,
) -> Result<Items<SimultaneousAlternative>, Stop>
    ensures { Reads (spec.simultaneous_alternatives most_operators levels reader.old) result reader.new }
{
    let first = simultaneous_alternative(alloc, reader, levels)?;
    more_alternatives(alloc, reader, levels, first)
}

/// A simultaneous case, behind its first word.
#[tactic(auto, using(parse_steps::proofs::Steps::terminal_seen), unfolding(crate::specs::Parsing::simultaneous_case))]
pub fn simultaneous_case(
    alloc: Global,
    reader: &mut Reader<'_>,
    levels: u32,
    place: Place,
) -> Result<ConcurrentStatement, Stop>
    ensures { Reads (spec.simultaneous_case most_operators levels place reader.old) result reader.new }
{
    let value = Held::new(outermost(alloc, reader, levels)?);
    reader.expect(TokenKind::Word(Word::Use))?;
    let all = simultaneous_alternatives(alloc, reader, levels)?;
    ending(reader, Word::Case)?;
    Ok(ConcurrentStatement::Case(place, value.into_inner(), all))
}
