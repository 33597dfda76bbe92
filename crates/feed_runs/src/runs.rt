// Runs of the program's commands over stores in memory.
use crate::first::FIRST_COMMANDS;
use blob_store::{Blobs, Fail as Fault, MemBlobs};
use feed_app::{Stores, run_command};
use feed_base::{Bytes, ClockList, NoMemory, SinkMem, SourceMem};
use std::alloc::Global;

/// 2024-01-01T00:00:00
pub const NEW_YEAR: u64 = 638_396_640_000_000_000;

/// 9999-12-31T23:59:59.9999999
pub const LAST: u64 = 3_155_378_975_999_999_999;

/// What a command is given besides its words, and which calls of it fail.
#[derive(Clone, Copy)]
pub struct Given<'a> {
    pub body: &'a str,
    /// The clock's moment.
    pub tick: u64,
    /// Which reads of the input fail, from 1.
    pub reads: &'a [u64],
    /// How many bytes the output takes.
    pub room: u64,
    /// Which writes of the output fail, from 1.
    pub writes: &'a [u64],
}

/// A body, with nothing that fails.
pub fn with_body(body: &str) -> Given<'_> {
    Given {
        body,
        tick: NEW_YEAR,
        reads: &[],
        room: 2000,
        writes: &[],
    }
}

fn words_of(alloc: Global, words: &[&str]) -> Result<Vec<String>, NoMemory> {
    let mut made = Vec::new(alloc);
    for word in words {
        made.push(String::from_str(alloc, word)?)?;
    }
    Ok(made)
}

/// The status and the text of a command on these stores, and what it leaves of them.
pub fn run(
    alloc: Global,
    stores: Stores<MemBlobs>,
    words: &[&str],
    given: Given<'_>,
) -> Result<(u8, SinkMem, Stores<MemBlobs>), NoMemory> {
    let words = words_of(alloc, words)?;
    let body = Bytes::copy_of(alloc, given.body.as_bytes())?;
    let mut input = SourceMem::of(alloc, body, given.reads)?;
    let mut output = SinkMem::new(alloc, given.room, given.writes)?;
    let mut clock = ClockList::of(alloc, &[given.tick.min(LAST)])?;
    let (status, stores) = run_command(alloc, &words, stores, &mut input, &mut output, &mut clock);
    Ok((status.number, output, stores))
}

/// Empty stores, where these calls of the catalog's and of the content's fail.
pub fn empty(
    alloc: Global,
    fails: &[Fault],
    content_fails: &[Fault],
) -> Result<Stores<MemBlobs>, NoMemory> {
    Ok(Stores {
        catalog: MemBlobs::failing(alloc, fails)?,
        plain: MemBlobs::new(alloc),
        semver2: MemBlobs::new(alloc),
        content: MemBlobs::failing(alloc, content_fails)?,
        auto: MemBlobs::new(alloc),
    })
}

/// The stores behind so many of these exchanges.
pub fn behind(
    alloc: Global,
    exchanges: usize,
    fails: &[Fault],
    content_fails: &[Fault],
) -> Result<Stores<MemBlobs>, NoMemory> {
    let mut stores = empty(alloc, fails, content_fails)?;
    for (words, body) in FIRST_COMMANDS.iter().take(exchanges) {
        let (_, _, left) = run(alloc, stores, words, with_body(body))?;
        stores = left;
    }
    Ok(stores)
}

/// Whether the blob of this name is this text.
pub fn holds(alloc: Global, area: &mut MemBlobs, name: &str, want: &str) -> bool {
    match area.get(alloc, name) {
        Ok(Some(bytes)) => bytes.as_slice() == want.as_bytes(),
        _ => false,
    }
}

/// A command's words and body, and the status and the text that it answers.
pub type Exchange<'a> = (&'a [&'a str], &'a str, u8, &'a str);
