//! The generated design of mode make: a ladder of resistors and capacitors.
#![tactic(auto)]

ghost use Rattle.std.specs.Prelude.{◌≡◌, ◌<◌, ◌++◌, codes, decimal, map, IfOk, string_bytes};
ghost use Rattle.ladder.specs.Ladder.{written, beginning, declaration, middle, equations, ending, sections, ladder_text};

use itoa::Buffer;
use std::alloc::{AllocError, Global};

const BEGINNING: &str =
    "entity ladder is end;\narchitecture made of ladder is\nsignal clk : bit;\nsignal lev : real := 0.0;\nterminal n0 : electrical;\nquantity v0 across j0 through n0;\n";

const MIDDLE: &str = "begin\nv0 == lev;\n";

const ENDING: &str =
    "process begin\nwait for 500 ns; clk <= not clk; wait on clk;\nif clk = '1' then lev <= 5.0; else lev <= 0.0; end if;\nend process;\nbreak on lev;\nend;\n";

fn add_number(text: &mut String, number: u32) -> Result<(), AllocError>
    ensures { IfOk result (λ _. string_bytes text.new ≡ string_bytes text.old ++ decimal number) }
{
    let mut buffer = Buffer::new();
    text.push_str(buffer.format(number))
}

// Adds each text with the number behind it.
#[tactic(auto, using(crate::proofs::TextLemmas::text_rules))]
fn add_parts(text: &mut String, parts: &[(&str, u32)]) -> Result<(), AllocError>
    ensures { IfOk result (λ _. string_bytes text.new ≡ string_bytes text.old ++ written (map (λ p. (p.0.now, p.1)) parts.now)) }
{
    match parts {
        [] => Ok(()),
        [part, rest @ ..] => {
            text.push_str(part.0)?;
            add_number(text, part.1)?;
            add_parts(text, rest)
        }
    }
}

// Adds the node and the branches of the section behind j sections.
#[tactic(auto, using(crate::proofs::TextLemmas::text_rules))]
fn add_declaration(text: &mut String, j: u32) -> Result<(), AllocError>
    requires { j < 4294967295 }
    ensures { IfOk result (λ _. string_bytes text.new ≡ string_bytes text.old ++ declaration j) }
{
    let k = j + 1;
    let parts = [
        ("terminal n", k),
        (" : electrical;\nquantity vr", k),
        (" across ir", k),
        (" through n", j),
        (" to n", k),
        (";\nquantity vc", k),
        (" across ic", k),
        (" through n", k),
    ];
    add_parts(text, parts.as_slice())?;
    text.push_str(";\n")
}

// Adds the equations of that section.
#[tactic(auto, using(crate::proofs::TextLemmas::text_rules))]
fn add_equations(text: &mut String, j: u32) -> Result<(), AllocError>
    requires { j < 4294967295 }
    ensures { IfOk result (λ _. string_bytes text.new ≡ string_bytes text.old ++ equations j) }
{
    let k = j + 1;
    let parts = [
        ("vr", k),
        (" == 1.0e3 * ir", k),
        (";\nic", k),
        (" == 1.0e-9 * vc", k),
    ];
    add_parts(text, parts.as_slice())?;
    text.push_str("'dot;\n")
}

#[tactic(auto, using(crate::proofs::TextLemmas::text_rules))]
fn add_declarations(text: &mut String, size: u32) -> Result<(), AllocError>
    ensures { IfOk result (λ _. string_bytes text.new ≡ string_bytes text.old ++ sections declaration size) }
{
    for j in 0..size {
        add_declaration(text, j)?;
    }
    Ok(())
}

#[tactic(auto, using(crate::proofs::TextLemmas::text_rules))]
fn add_all_equations(text: &mut String, size: u32) -> Result<(), AllocError>
    ensures { IfOk result (λ _. string_bytes text.new ≡ string_bytes text.old ++ sections equations size) }
{
    for j in 0..size {
        add_equations(text, j)?;
    }
    Ok(())
}

/// The text of a ladder of so many sections, of the entity `ladder`. It has 3 + 6 * size unknowns.
#[tactic(auto, unfolding(crate::specs::Ladder::ladder_text))]
pub fn ladder_text(alloc: Global, size: u32) -> Result<String, AllocError>
    ensures { IfOk result (λ text. string_bytes text ≡ ladder_text size) }
{
    let mut text = String::new(alloc);
    text.push_str(BEGINNING)?;
    add_declarations(&mut text, size)?;
    text.push_str(MIDDLE)?;
    add_all_equations(&mut text, size)?;
    text.push_str(ENDING)?;
    Ok(text)
}
