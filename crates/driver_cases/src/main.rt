//! Assigns the waveforms on standard input to drivers, and prints what is pending then.
//!
//! A line is a kind of delay, a rejection limit and a semicolon, the pending transactions, a bar, and the new ones. A transaction
//! is its time and its value 0 or 1 with a colon between.
#![tactic(auto)]

ghost use Rattle.std.specs.Prelude.{IsTrue};
ghost use Rattle.waveform.specs.Projected.{IsRising};

use ams_value::Val;
use anyhow::{Context, Result, bail};
use fix_core::Tick;
use std::alloc::{AllocError, Global};
use step_data::Trans;
use waveform::{DelayKind, Driver};

/// Each time is later than the one before.
fn are_rising(list: &[Trans]) -> bool
    ensures { IsTrue result → IsRising list.now }
{
    for i in 1..list.len() {
        let before = list[i - 1];
        let next = list[i];
        if before.at.get() >= next.at.get() {
            return false;
        }
    }
    true
}

/// Assigns a waveform where there is one and its times rise.
fn assign(
    driver: &mut Driver,
    kind: DelayKind,
    reject: u64,
    new: &[Trans],
    start: Tick,
) -> Result<(), AllocError> {
    if !new.is_empty() && start.get() == 0 && are_rising(new) {
        driver.assign(start, kind, reject, new)?;
    }
    Ok(())
}

fn transaction(word: &str) -> Result<Trans> {
    let (at, value) = word.split_once(':').context("a transaction")?;
    let at = Tick::new(at.parse::<u64>().context("a time")?).context("a time")?;
    let value = Val::Bit(value == "1");
    Ok(Trans { at, value })
}

/// The transactions of a text.
fn transactions(alloc: Global, text: &str) -> Result<Vec<Trans>> {
    text.split_whitespace()
        .map(|word| transaction(word))
        .try_collect(alloc)
}

fn text_of(alloc: Global, list: &[Trans]) -> Result<String, AllocError> {
    let mut text = String::new(alloc);
    for x in list {
        let at = x.at.get();
        let value = if x.value == Val::Bit(true) { 1 } else { 0 };
        write!(text, " {at}:{value}")?;
    }
    Ok(text)
}

/// What is pending after the assignment of a line.
fn after(alloc: Global, line: &str) -> Result<String> {
    let (head, new) = line.split_once('|').context("a bar")?;
    let (words, old) = head.split_once(';').context("a semicolon")?;
    let (kind, reject) = words.split_once(' ').context("a blank")?;
    let kind = match kind {
        "transport" => DelayKind::Transport,
        "inertial" => DelayKind::Inertial,
        _ => bail!("an unknown kind"),
    };
    let reject = reject.parse::<u64>().context("a rejection limit")?;
    let start = Tick::new(0).context("a time")?;
    let old = transactions(alloc, old)?;
    let new = transactions(alloc, new)?;
    let mut driver = Driver::new(alloc, Val::Bit(false));
    assign(&mut driver, DelayKind::Transport, 0, old.as_slice(), start)?;
    assign(&mut driver, kind, reject, new.as_slice(), start)?;
    Ok(text_of(alloc, driver.pending().as_slice())?)
}

fn main(rt: HostRuntime) -> Result<()> {
    let alloc = rt.alloc();
    for line in rt.lines(alloc) {
        let text = after(alloc, line?.as_str())?;
        println!(rt; "{text}")?;
    }
    Ok(())
}
