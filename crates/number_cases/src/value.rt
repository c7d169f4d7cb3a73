//! Values as words: the kind of the value, a colon, and its number, as `int:-5`; `enum:TYPE:POSITION`;
//! `bits:LENGTH:CONTENT`.

use ams_value::Val;
use fix_core::Fix;
use std::io;

/// The value that a word stands for.
pub fn value(word: &str) -> Option<Val> {
    let (kind, rest) = word.split_once(':')?;
    match kind {
        "bool" => Some(Val::Bool(rest == "1")),
        "bit" => Some(Val::Bit(rest == "1")),
        "int" => Some(Val::Int(rest.parse().ok()?)),
        "real" => Some(Val::Real(Fix::from_units(rest.parse().ok()?).ok()?)),
        "time" => Some(Val::Time(rest.parse().ok()?)),
        _ => pair(kind, rest),
    }
}

fn pair(kind: &str, rest: &str) -> Option<Val> {
    let (first, second) = rest.split_once(':')?;
    match kind {
        "enum" => Some(Val::Enum(first.parse().ok()?, second.parse().ok()?)),
        "bits" => Some(Val::Bits(first.parse().ok()?, second.parse().ok()?)),
        _ => None,
    }
}

/// Prints the word of a value.
pub fn print(rt: &impl Print, value: Val) -> io::Result<()> {
    match value {
        Val::Bool(b) => println!(rt; "bool:{}", u8::from(b)),
        Val::Bit(b) => println!(rt; "bit:{}", u8::from(b)),
        Val::Int(i) => println!(rt; "int:{i}"),
        Val::Real(r) => {
            let units = r.units();
            println!(rt; "real:{units}")
        }
        Val::Time(t) => println!(rt; "time:{t}"),
        Val::Enum(number, position) => println!(rt; "enum:{number}:{position}"),
        Val::Bits(length, content) => println!(rt; "bits:{length}:{content}"),
    }
}
