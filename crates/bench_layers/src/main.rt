//! Does one piece of a layer's work so many times, and prints the work and the wrapping sum of the results.
#![tactic(auto)]

mod dense;
mod numbers;
mod texts;
mod work;

use std::{fs, io};
use texts::TextWork;
use work::Work;

const USAGE: &str = "usage: bench_layers WORK COUNT, or bench_layers lex|parse COUNT FILE";

fn main(rt: HostRuntime) -> io::Result<()> {
    let mut words = std::env::args(&rt)?.skip(1);
    let (Some(name), Some(count)) = (words.next(), words.next()) else {
        return eprintln!(rt; "{USAGE}");
    };
    let Ok(count) = count.parse::<u64>() else {
        return eprintln!(rt; "{USAGE}");
    };
    if let Some(work) = Work::named(name.as_str()) {
        let sum = work.sum(rt.alloc(), count)?;
        return println!(rt; "{name} {sum}");
    }
    let (Some(work), Some(path)) = (TextWork::named(name.as_str()), words.next()) else {
        return eprintln!(rt; "{USAGE}");
    };
    let text = fs::read(&rt, path)?;
    let sum = work.sum(rt.alloc(), text.as_slice(), count);
    println!(rt; "{name} {sum}")
}
