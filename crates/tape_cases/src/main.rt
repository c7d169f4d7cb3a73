//! Reads expressions, one a line behind the thousandths of three quantities and the time in ticks, and prints what the tape of
//! each gives: the value and the slopes by the quantities in units, or the code of the fault. Of an expression that isn't of REAL
//! it prints the type and the value.
#![tactic(auto)]

mod point;
mod prefix;
mod run;
mod types;

use ams_value::Val;
use fix_core::Tick;
use point::Point;
use prefix::{build, thousandths};
use run::{Answer, Sloped, run_row};
use std::io;
use std::str::SplitWhitespace;

/// The most levels of an expression.
const MOST_LEVELS: u8 = 20;

fn read_point(words: &mut SplitWhitespace<'_>) -> Option<Point> {
    let first = thousandths(words.next()?)?;
    let second = thousandths(words.next()?)?;
    let third = thousandths(words.next()?)?;
    let time = Tick::new(words.next()?.parse::<u64>().ok()?)?;
    Some(Point {
        first,
        second,
        third,
        time,
    })
}

fn print_number(rt: &HostRuntime, number: Sloped) -> io::Result<()> {
    println!(rt;
        "{} {} {} {}",
        number.value, number.first, number.second, number.third
    )
}

fn print_value(rt: &HostRuntime, value: Val) -> io::Result<()> {
    match value {
        Val::Bool(truth) => println!(rt; "boolean {truth}"),
        Val::Bit(bit) => println!(rt; "bit {}", u8::from(bit)),
        Val::Int(number) => println!(rt; "integer {number}"),
        Val::Real(number) => println!(rt; "real {}", number.units()),
        Val::Time(ticks) => println!(rt; "time {ticks}"),
        Val::Enum(kind, position) => println!(rt; "literal {kind} {position}"),
        Val::Bits(length, content) => println!(rt; "bits {length} {content}"),
    }
}

fn print_line(rt: &HostRuntime, line: &str) -> io::Result<()> {
    let mut words = line.split_whitespace();
    let Some(point) = read_point(&mut words) else {
        return println!(rt; "unread");
    };
    let Some(expr) = build(rt.alloc(), &mut words, MOST_LEVELS)? else {
        return println!(rt; "unread");
    };
    match run_row(rt.alloc(), &expr, &point)? {
        Some(Answer::Number(number)) => print_number(rt, number),
        Some(Answer::Value(value)) => print_value(rt, value),
        Some(Answer::Fault(fault)) => println!(rt; "fault {}", fault.code()),
        None => println!(rt; "no type"),
    }
}

fn main(rt: HostRuntime) -> io::Result<()> {
    for line in rt.lines(rt.alloc()) {
        let line = line?;
        print_line(&rt, line.as_str())?;
    }
    Ok(())
}
