//! The program `feed`: a package feed in a folder.
//!
//! A lone `--help` or `--version` is answered before anything else. Else its first word is the folder, in which `catalog`
//! and the four hives have folders of their own; the words behind it are the command's. The input is standard input, the
//! answer goes to standard output, and the clock is the system's. Before the first call of a store it takes the system's
//! lock on the folder, and keeps it to its end.
#![tactic(auto)]

mod own;
mod words;

use feed_app::{Command, Status, meaning_of, read_words, run_command};
use feed_base::{NoMemory, Sink};
use own::{own_text, tell};
use std::io;
use std::process::ExitCode;
use system::{FolderLock, Reading, SystemClock, Writing, stores};
use words::{Words, given_words};

// The lock on the feed's folder, which `init` makes where there is none. For words without a meaning it isn't asked for.
fn lock_for(rt: &HostRuntime, words: &Words) -> Result<FolderLock, NoMemory> {
    let alloc = rt.alloc();
    let Some(read) = read_words(alloc, &words.command)? else {
        return Ok(FolderLock::none());
    };
    match meaning_of(alloc, &read)? {
        None => Ok(FolderLock::none()),
        Some(Command::Init(_)) => Ok(FolderLock::make(rt, rt, &words.folder)),
        Some(_) => Ok(FolderLock::take(rt, rt, &words.folder)),
    }
}

fn run<O: Sink>(rt: &HostRuntime, output: &mut O) -> Result<Status, NoMemory> {
    let alloc = rt.alloc();
    let words = given_words(rt)?;
    if let Some(text) = own_text(words.folder.as_str(), &words.command) {
        return Ok(tell(output, text));
    }
    let lock = lock_for(rt, &words)?;
    let stores = stores(rt, alloc, &words.folder, &lock)?;
    let mut input = Reading::new(rt.reader());
    let mut clock = SystemClock::new(rt);
    let (status, _) = run_command(
        alloc,
        &words.command,
        stores,
        &mut input,
        output,
        &mut clock,
    );
    drop(lock);
    Ok(status)
}

fn tell_memory<O: Sink>(output: &mut O) -> Status {
    match output.write(b"memory\n") {
        Ok(()) => Status { number: 8 },
        Err(_) => Status { number: 5 },
    }
}

fn main(rt: HostRuntime) -> ExitCode {
    let mut output = Writing::new(io::writer(&rt));
    let status = match run(&rt, &mut output) {
        Ok(status) => status,
        Err(NoMemory) => tell_memory(&mut output),
    };
    ExitCode::from(status.number)
}
