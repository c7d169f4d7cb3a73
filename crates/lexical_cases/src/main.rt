//! Reads texts, one a line, and prints the tokens of each with their places, or its first fault.
//!
//! In a row and in an answer `\xHH` stands for the byte of this number, and a backslash stands for nothing else.
#![tactic(auto)]

mod answer;

use std::alloc::Global;
use std::io;

/// The bytes of a text as a row writes them. None where two digits are missing.
fn bytes_of(alloc: Global, row: &str) -> Option<Vec<u8>> {
    let mut bytes = Vec::new(alloc);
    let mut parts = row.split("\\x");
    bytes.extend_from_slice(parts.next()?.as_bytes()).ok()?;
    for part in parts {
        let (digits, rest) = part.split_at_checked(2)?;
        bytes.push(u8::from_str_radix(digits, 16).ok()?).ok()?;
        bytes.extend_from_slice(rest.as_bytes()).ok()?;
    }
    Some(bytes)
}

fn main(rt: HostRuntime) -> io::Result<()> {
    for line in rt.lines(rt.alloc()) {
        let line = line?;
        match bytes_of(rt.alloc(), line.as_str()) {
            Some(text) => {
                let answer = answer::answer(rt.alloc(), text.as_slice())?;
                println!(rt; "{answer}")?;
            }
            None => println!(rt; "unread")?,
        }
    }
    Ok(())
}
