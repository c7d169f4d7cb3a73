//! Runs one design a line, with the words of a command line before it, and prints its whole trace, or the note of its refusal.
//!
//! In a row the words stand first, and a colon and a blank behind them; in the text `\xHH` stands for the byte of this number, and a
//! backslash stands for nothing else. Where the words ask for mode make, the text is that of the generated ladder.
#![tactic(auto)]

mod reading;
mod running;

use program_words::{Settings, read_settings};
use reading::{bytes_of, words_of};
use running::run_text;
use std::alloc::Global;
use std::io;
use word_rules::check_words;

fn run_row(rt: &impl Print, alloc: Global, words: &[String], text: &[u8]) -> io::Result<()> {
    match check_words(words) {
        Ok(()) => match read_settings(alloc, words) {
            Ok(settings) => run_text(rt, alloc, text, &settings),
            Err(_) => println!(rt; "no memory for the words"),
        },
        Err(number) => println!(rt; "usage {number}"),
    }
}

fn answer_row(rt: &impl Print, alloc: Global, row: &str) -> io::Result<()> {
    let Some((words, text)) = row.split_once(": ") else {
        return println!(rt; "no words");
    };
    let words = words_of(alloc, words)?;
    match bytes_of(alloc, text) {
        Some(bytes) => run_row(rt, alloc, words.as_slice(), bytes.as_slice()),
        None => println!(rt; "no text"),
    }
}

fn main(rt: HostRuntime) -> io::Result<()> {
    for line in rt.lines(rt.alloc()) {
        let line = line?;
        answer_row(&rt, rt.alloc(), line.as_str())?;
    }
    Ok(())
}
