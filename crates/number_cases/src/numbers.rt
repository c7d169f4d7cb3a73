//! Calls of the numbers and of the mathematical functions. Operands are units.

use fix_core::{Fix, NumFault};
use math_fix::{cos, exp, sin, sqrt};
use std::io;

/// The units of a call's result, or the code of its fault; none where the words are no such call.
pub fn call(name: &str, left: &str, right: &str) -> Option<Result<i128, u8>> {
    if name == "from_decimal" {
        return Some(units(decimal(left.parse().ok()?, right.parse().ok()?)?));
    }
    let a = left.parse::<i128>().ok()?;
    let number = match Fix::from_units(a) {
        Ok(number) => number,
        Err(fault) => return Some(Err(fault.code())),
    };
    match name {
        "exp" => Some(units(exp(number))),
        "sqrt" => Some(units(sqrt(number))),
        "sin" => Some(Ok(sin(number).units())),
        "cos" => Some(Ok(cos(number).units())),
        _ => operation(name, number, right.parse().ok()?),
    }
}

fn operation(name: &str, left: Fix, right: i128) -> Option<Result<i128, u8>> {
    let right = match Fix::from_units(right) {
        Ok(number) => number,
        Err(fault) => return Some(Err(fault.code())),
    };
    match name {
        "add" => Some(units(left.add(right))),
        "sub" => Some(units(left.sub(right))),
        "mul" => Some(units(left.mul(right))),
        "div" => Some(units(left.div(right))),
        _ => None,
    }
}

/// The number with these digits, where they are as few as a literal may have.
fn decimal(digits: u128, power: i32) -> Option<Result<Fix, NumFault>> {
    if digits < 100_000_000_000_000_000_000_000_000_000_000 {
        Some(Fix::from_decimal(digits, power))
    } else {
        None
    }
}

fn units(number: Result<Fix, NumFault>) -> Result<i128, u8> {
    match number {
        Ok(number) => Ok(number.units()),
        Err(fault) => Err(fault.code()),
    }
}

/// Prints the text of the number of so many units.
pub fn print_text(rt: &impl Print, word: &str) -> io::Result<()> {
    let Ok(units) = word.parse::<i128>() else {
        return println!(rt; "unread");
    };
    let Ok(number) = Fix::from_units(units) else {
        return println!(rt; "unread");
    };
    let mut text = [0u8; 27];
    let length = number.to_text(&mut text);
    match text.get(..length).map(str::from_utf8) {
        Some(Ok(text)) => println!(rt; "{text}"),
        _ => println!(rt; "unread"),
    }
}
