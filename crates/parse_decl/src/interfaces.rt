//! Generics and ports.

ghost use Rattle.std.specs.Prelude.{◌≡◌};
ghost use Rattle.parse_steps.specs.Reading.{Reads};
ghost use Rattle.parse_steps.specs.Reply.{most_operators};
ghost use Rattle.parse_decl.specs.Parsing as spec;

use crate::parts::{default, indication, mode, names_colon, word_place, word_said};
use ams_token::{Place, TokenKind, Word};
use ams_tree::{Generic, Port};
use held_value::Held;
use parse_parts::name;
use parse_steps::{Reader, Stop};
use std::alloc::Global;

/// A declaration of generics, in which `levels` parentheses may be open.
#[tactic(auto, unfolding(crate::specs::Parsing::generic))]
pub fn generic(alloc: Global, reader: &mut Reader<'_>, levels: u32) -> Result<Generic, Stop>
    ensures { Reads (spec.generic most_operators levels reader.old) result reader.new }
{
    let constant = word_place(reader, Word::Constant)?;
    let names = names_colon(alloc, reader)?;
    let mode_in = word_said(reader, Word::In)?;
    let indication = Held::new(indication(alloc, reader, levels)?);
    let default = default(alloc, reader, levels)?;
    Ok(Generic {
        constant,
        names,
        mode_in,
        indication: indication.into_inner(),
        default,
    })
}

#[tactic(auto, unfolding(crate::specs::Parsing::terminal_port))]
fn terminal_port(alloc: Global, reader: &mut Reader<'_>) -> Result<Port, Stop>
    ensures { Reads (spec.terminal_port reader.old) result reader.new }
{
    let place = reader.expect(TokenKind::Word(Word::Terminal))?;
    let ids = names_colon(alloc, reader)?;
    let nature = name(reader)?;
    Ok(Port::Terminal(place, ids, nature))
}

#[tactic(auto, unfolding(crate::specs::Parsing::quantity_port))]
fn quantity_port(alloc: Global, reader: &mut Reader<'_>, levels: u32) -> Result<Port, Stop>
    ensures { Reads (spec.quantity_port most_operators levels reader.old) result reader.new }
{
    let place = reader.expect(TokenKind::Word(Word::Quantity))?;
    let ids = names_colon(alloc, reader)?;
    let mode = mode(reader)?;
    let indication = indication(alloc, reader, levels)?;
    Ok(Port::Quantity(place, ids, mode, indication))
}

#[tactic(auto, unfolding(crate::specs::Parsing::signal_port))]
fn signal_port(
    alloc: Global,
    reader: &mut Reader<'_>,
    levels: u32,
    place: Option<Place>,
) -> Result<Port, Stop>
    ensures { Reads (spec.signal_port most_operators levels place reader.old) result reader.new }
{
    let ids = names_colon(alloc, reader)?;
    let mode = mode(reader)?;
    let indication = Held::new(indication(alloc, reader, levels)?);
    let value = default(alloc, reader, levels)?;
    Ok(Port::Signal(place, ids, mode, indication.into_inner(), value))
}

/// A declaration of ports, in which `levels` parentheses may be open.
#[tactic(auto, unfolding(crate::specs::Parsing::port_declaration))]
pub fn port_declaration(alloc: Global, reader: &mut Reader<'_>, levels: u32) -> Result<Port, Stop>
    ensures { Reads (spec.port_declaration most_operators levels reader.old) result reader.new }
{
    if reader.at(TokenKind::Word(Word::Terminal)) {
        return terminal_port(alloc, reader);
    }
    if reader.at(TokenKind::Word(Word::Quantity)) {
        return quantity_port(alloc, reader, levels);
    }
    let place = word_place(reader, Word::Signal)?;
    signal_port(alloc, reader, levels, place)
}
