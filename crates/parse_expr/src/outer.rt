ghost use Rattle.std.specs.Prelude.{◌≡◌};
ghost use Rattle.parse_steps.specs.Reading.{Reads};
ghost use Rattle.parse_steps.specs.Reply.{most_operators};
ghost use Rattle.parse_expr.specs.Parsing as spec;

use crate::rules::{Rules, nested};
use crate::tokens::name_of;
use ams_tree::Expr;
use parse_steps::{MOST_OPERATORS, Reader, Stop};
use std::alloc::Global;

/// An expression that stands in no other one, in which `levels` parentheses may be open.
#[tactic(auto, unfolding(crate::specs::Parsing::expr, crate::specs::Parsing::expression, crate::specs::Parsing::inside))]
pub fn outermost(alloc: Global, reader: &mut Reader<'_>, levels: u32) -> Result<Expr, Stop>
    ensures { Reads (spec.expression most_operators levels reader.old) result reader.new }
{
    let mut inner = reader.fresh(MOST_OPERATORS);
    let found = Rules {
        alloc,
        levels,
        listed: false,
        nested,
    }
    .logical(&mut inner)?;
    reader.resume(&inner);
    Ok(found)
}

/// A simple expression that stands in no other one, in which `levels` parentheses may be open.
#[tactic(auto, unfolding(crate::specs::Parsing::simple_expr, crate::specs::Parsing::simple_expression, crate::specs::Parsing::inside))]
pub fn outermost_simple(alloc: Global, reader: &mut Reader<'_>, levels: u32) -> Result<Expr, Stop>
    ensures { Reads (spec.simple_expression most_operators levels reader.old) result reader.new }
{
    let mut inner = reader.fresh(MOST_OPERATORS);
    let found = Rules {
        alloc,
        levels,
        listed: false,
        nested,
    }
    .simple(&mut inner)?;
    reader.resume(&inner);
    Ok(found)
}

/// A name in a list of names, in which `levels` parentheses may be open.
#[tactic(auto, using(parse_steps::proofs::Steps::terminal_seen), unfolding(crate::specs::Parsing::listed_name, crate::specs::Parsing::inside))]
pub fn listed_name(alloc: Global, reader: &mut Reader<'_>, levels: u32) -> Result<Expr, Stop>
    ensures { Reads (spec.listed_name most_operators levels reader.old) result reader.new }
{
    let Some(name) = name_of(reader.peek()) else {
        return Err(Stop::Syntax(reader.left()));
    };
    reader.take(true, 0)?;
    Rules {
        alloc,
        levels,
        listed: true,
        nested,
    }
    .named(reader, 0, name)
}
