//! Reads calls of the numbers, the mathematical functions and the operators, one a line, and prints what each gives.
#![tactic(auto)]

mod numbers;
mod operators;
mod value;

use std::io;

/// What a call gives.
enum Answer {
    Units(i128),
    Value(ams_value::Val),
    Fault(u8),
}

fn evaluate(name: &str, left: &str, right: &str) -> Option<Answer> {
    match numbers::call(name, left, right) {
        Some(Ok(units)) => Some(Answer::Units(units)),
        Some(Err(code)) => Some(Answer::Fault(code)),
        None => operators::apply(name, left, right).map(|given| match given {
            Ok(value) => Answer::Value(value),
            Err(fault) => Answer::Fault(fault.code()),
        }),
    }
}

fn run(rt: &impl Print, line: &str) -> io::Result<()> {
    let mut words = line.split_whitespace();
    let name = words.next().unwrap_or("");
    let left = words.next().unwrap_or("");
    let right = words.next().unwrap_or("");
    if name == "text" {
        return numbers::print_text(rt, left);
    }
    match evaluate(name, left, right) {
        Some(Answer::Units(units)) => println!(rt; "{units}"),
        Some(Answer::Value(value)) => value::print(rt, value),
        Some(Answer::Fault(code)) => println!(rt; "fault {code}"),
        None => println!(rt; "unread"),
    }
}

fn main(rt: HostRuntime) -> io::Result<()> {
    for line in rt.lines(rt.alloc()) {
        let line = line?;
        run(&rt, line.as_str())?;
    }
    Ok(())
}
