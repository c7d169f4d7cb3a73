//! Solves the linear systems on standard input, and prints the units of each system's unknowns or its fault.
//! Each is solved on dense rows, on sparse rows, and with the elimination that is kept of the system before; where these
//! differ, all three are printed.
//!
//! A line is a system: the number of its unknowns, and the units of its entries row by row, each row's right side last.
#![tactic(auto)]

ghost use Rattle.std.specs.Prelude.{◌≡◌, length, IfOk};

use ams_point::Point;
use anyhow::{Context, Result, bail};
use fix_core::Fix;
use kept_rows::KeptElimination;
use lin_solve::{LinFault, Rows, solve};
use sparse_rows::SparseRows;
use std::alloc::{AllocError, Global};

/// Writes the entries, row by row.
fn fill(rows: &mut Rows, entries: &[Fix])
    ensures { length rows.new ≡ length rows.old }
{
    let n = rows.len();
    let mut rest = entries;
    for row in 0..n {
        for column in 0..=n {
            if let [entry, more @ ..] = rest {
                rows.set(row, column, *entry);
                rest = more;
            }
        }
    }
}

/// The entries of a line behind its first word.
fn entries_of(alloc: Global, line: &str) -> Result<Vec<Fix>> {
    let mut entries = Vec::new(alloc);
    for word in line.split_whitespace().skip(1) {
        let Ok(entry) = Fix::from_units(word.parse::<i128>().context("an entry")?) else {
            bail!("an entry is too large");
        };
        entries.push(entry)?;
    }
    Ok(entries)
}

/// The same rows, sparse.
fn sparse_of(alloc: Global, rows: &Rows) -> Result<SparseRows, AllocError>
    ensures { IfOk result (λ sparse. length sparse ≡ length rows.now) }
{
    let n = rows.len();
    let mut sparse = SparseRows::new(alloc, n)?;
    for row in 0..n {
        for column in 0..=n {
            sparse.set(row, column, rows.get(row, column));
        }
    }
    Ok(sparse)
}

/// The unknowns or the fault.
fn text_of(alloc: Global, solved: Result<(), LinFault>, out: &Point) -> Result<String, AllocError> {
    match solved {
        Ok(()) => unknowns_of(alloc, out),
        Err(LinFault::Singular(column)) => format!(in alloc; " singular {column}"),
        Err(LinFault::Overflow) => format!(in alloc; " overflow"),
    }
}

fn unknowns_of(alloc: Global, out: &Point) -> Result<String, AllocError> {
    let mut text = String::new(alloc);
    for x in out.as_slice() {
        let units = x.units();
        write!(text, " {units}")?;
    }
    Ok(text)
}

/// The answer of sparse rows.
fn sparse_answer(alloc: Global, rows: &mut SparseRows) -> Result<String, AllocError> {
    let mut out = Point::new(alloc, rows.len())?;
    let solved = rows.solve(&mut out);
    text_of(alloc, solved, &out)
}

/// The answer of the kept elimination, which is made anew for another number of unknowns.
fn kept_answer(
    alloc: Global,
    kept: &mut KeptElimination,
    rows: &mut SparseRows,
) -> Result<String, AllocError> {
    if kept.len() != rows.len() {
        *kept = KeptElimination::new(alloc, rows.len())?;
    }
    let mut out = Point::new(alloc, rows.len())?;
    let solved = kept.solve(rows, &mut out);
    text_of(alloc, solved, &out)
}

/// The answer for a system of so many unknowns.
fn answer(
    alloc: Global,
    kept: &mut KeptElimination,
    n: usize,
    entries: &[Fix],
) -> Result<String, AllocError> {
    let mut rows = Rows::new(alloc, n)?;
    fill(&mut rows, entries);
    let mut sparse = sparse_of(alloc, &rows)?;
    let mut again = sparse_of(alloc, &rows)?;
    let mut out = Point::new(alloc, n)?;
    let solved = solve(&mut rows, &mut out);
    let dense_text = text_of(alloc, solved, &out)?;
    let sparse_text = sparse_answer(alloc, &mut sparse)?;
    let kept_text = kept_answer(alloc, kept, &mut again)?;
    if sparse_text == dense_text && kept_text == dense_text {
        return Ok(dense_text);
    }
    format!(in alloc; "{dense_text}, sparse{sparse_text}, kept{kept_text}")
}

fn main(rt: HostRuntime) -> Result<()> {
    let alloc = rt.alloc();
    let mut kept = KeptElimination::new(alloc, 0)?;
    for line in rt.lines(alloc) {
        let line = line?;
        let n = line
            .as_str()
            .split_whitespace()
            .next()
            .context("a size")?
            .parse::<usize>()
            .context("a size")?;
        let entries = entries_of(alloc, line.as_str())?;
        let text = answer(alloc, &mut kept, n, entries.as_slice())?;
        println!(rt; "{n}{text}")?;
    }
    Ok(())
}
