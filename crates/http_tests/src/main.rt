//! Requests with what they are read as, a row each on standard input, in every cutting of their bytes.
//!
//! A row is the section of the standard that asks for it, the bytes, and the answers, with tabs between. Each
//! row's bytes are read in one piece, in pieces of one, two and three bytes, and cut in two and in three at each
//! place and at each two places.
#![tactic(auto)]

mod cut_link;
#[cfg(test)]
mod faults;
#[cfg(test)]
mod limits;
#[cfg(test)]
mod replies;
mod row;
#[cfg(test)]
mod same;
mod told;

use cut_link::{CutLink, Cuts};
use row::Row;
use std::alloc::{AllocError, Global};
use std::io;
use told::told;

/// How many readings were made, and how many gave other answers than the row's.
#[derive(Clone, Copy)]
struct Tally {
    readings: u64,
    wrong: u64,
}

impl Tally {
    // One reading more.
    fn count(self, right: bool) -> Tally {
        Tally {
            readings: self.readings.saturating_add(1),
            wrong: self.wrong.saturating_add(u64::from(!right)),
        }
    }
}

fn read_once(alloc: Global, row: &Row, cuts: Cuts, tally: Tally) -> Result<Tally, AllocError> {
    let mut link = CutLink::of(&row.bytes, cuts);
    let answers = told(alloc, &mut link)?;
    Ok(tally.count(answers.as_bytes() == row.answers.as_slice()))
}

// Cuts at one place, and at that and each place behind it.
fn cut_in_three(alloc: Global, row: &Row, first: usize, tally: Tally) -> Result<Tally, AllocError> {
    let mut tally = tally;
    for second in first..row.bytes.len() {
        tally = read_once(alloc, row, Cuts::at(first, second), tally)?;
    }
    Ok(tally)
}

fn cut_everywhere(alloc: Global, row: &Row, tally: Tally) -> Result<Tally, AllocError> {
    let mut tally = tally;
    for place in 0..row.bytes.len() {
        tally = cut_in_three(alloc, row, place, tally)?;
    }
    Ok(tally)
}

fn read_row(alloc: Global, row: &Row, tally: Tally) -> Result<Tally, AllocError> {
    let mut tally = read_once(alloc, row, Cuts::none(), tally)?;
    for size in 1..4usize {
        tally = read_once(alloc, row, Cuts::pieces(size), tally)?;
    }
    cut_everywhere(alloc, row, tally)
}

fn main(rt: HostRuntime) -> io::Result<()> {
    let alloc = rt.alloc();
    let mut rows = 0u64;
    let mut all = Tally {
        readings: 0,
        wrong: 0,
    };
    for line in rt.lines(alloc) {
        let line = line?;
        if let Some(row) = Row::read(alloc, line.as_str())? {
            let tally = read_row(alloc, &row, all)?;
            if tally.wrong > all.wrong {
                println!(rt; "wrong: {line}")?;
            }
            rows = rows.saturating_add(1);
            all = tally;
        }
    }
    println!(rt;
        "rows {rows}, readings {}, wrong {}",
        all.readings, all.wrong
    )
}
