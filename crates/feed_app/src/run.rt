// The top call.
ghost use Rattle.std.specs.Prelude.{◌≡◌, option_map};
ghost use Rattle.feed_words.specs.Words.{given};
ghost use Rattle.feed_app.specs.Commands.{asked, base_of, command_of, of_given};
ghost use Rattle.feed_words.specs.Words.{texts};
ghost use Rattle.feed_app.specs.Does.{Does, meaning, reach_of};
ghost use Rattle.feed_app.specs.Frame.{IsDone, KeepsValue};
ghost use Rattle.feed_app.specs.Outside.{bounds, input_of, output_of, outside, over};
ghost use Rattle.feed_app.specs.Runs.{RunsCommand};
ghost use Rattle.feed_app.specs.Writes.{WritesAnswer};

use crate::answer::Answer;
use crate::cursor::cursor;
use crate::get::get;
use crate::init::init;
use crate::job::job;
use crate::names::commit_names;
use crate::publish::publish;
use crate::words::{Command, meaning_of};
use admin_wire::Line;
use blob_store::Blobs;
use catalog_core::Stores;
use feed_base::{Clock, Sink, Source, Status};
use feed_words::{Words, read_words};
use pkg_meta::NoMemory;
use std::alloc::Global;

// Does a command, for a base address that is given, if any.
fn obey<B: Blobs, I: Source, C: Clock>(
    alloc: Global,
    command: Command<'_>,
    base: Option<&str>,
    stores: Stores<B>,
    input: &mut I,
    clock: &mut C,
) -> (Answer, Stores<B>)
    ensures done { IsDone B.Blobs (meaning B.Blobs (asked command.entry)) (over (option_map (λ t. t.now) base.entry) stores
        (input_of I.Source input.old) (C.answers clock.old))
        result.0 (over (option_map (λ t. t.now) base.entry) result.1 (input_of I.Source input.new) (C.answers clock.new)) }
    ensures unread { KeepsValue (meaning B.Blobs (asked command.entry)).reach.input input.old input.new }
    ensures unasked { KeepsValue (meaning B.Blobs (asked command.entry)).reach.clock clock.old clock.new }
{
    match command {
        Command::Init(own) => init(alloc, stores, own),
        Command::Publish => publish(alloc, stores, base, input, clock),
        Command::Names(kind, words) => commit_names(alloc, stores, base, kind, words, clock),
        Command::Job(hive) => job(alloc, stores, base, hive),
        Command::Cursor(hive) => cursor(alloc, stores, base, hive),
        Command::Get(path) => get(alloc, stores, base, path),
    }
}

// Does what words mean that were read.
fn act_on<B: Blobs, I: Source, C: Clock>(
    alloc: Global,
    words: &Words,
    stores: Stores<B>,
    input: &mut I,
    clock: &mut C,
) -> (Answer, Stores<B>)
    ensures does { Does B.Blobs (of_given (given words.now)) (over (given words.now).base stores (input_of I.Source input.old) (C.answers clock.old)) result.0
        (over (given words.now).base result.1 (input_of I.Source input.new) (C.answers clock.new)) }
    ensures unread { KeepsValue (reach_of B.Blobs (of_given (given words.now))).input input.old input.new }
    ensures unasked { KeepsValue (reach_of B.Blobs (of_given (given words.now))).clock clock.old clock.new }
{
    match meaning_of(alloc, words) {
        Err(NoMemory) => (Answer::Reply(Line::Memory), stores),
        Ok(None) => (Answer::Usage, stores),
        Ok(Some(command)) => obey(alloc, command, words.base(), stores, input, clock),
    }
}

// Does what the words say, but for the writing.
fn act<B: Blobs, I: Source, C: Clock>(
    alloc: Global,
    words: &[String],
    stores: Stores<B>,
    input: &mut I,
    clock: &mut C,
) -> (Answer, Stores<B>)
    ensures does { Does B.Blobs (command_of (texts words.now)) (over (base_of (texts words.now)) stores (input_of I.Source input.old)
        (C.answers clock.old)) result.0
        (over (base_of (texts words.now)) result.1 (input_of I.Source input.new) (C.answers clock.new)) }
    ensures unread { KeepsValue (reach_of B.Blobs (command_of (texts words.now))).input input.old input.new }
    ensures unasked { KeepsValue (reach_of B.Blobs (command_of (texts words.now))).clock clock.old clock.new }
{
    match read_words(alloc, words) {
        Err(NoMemory) => (Answer::Reply(Line::Memory), stores),
        Ok(None) => (Answer::Usage, stores),
        Ok(Some(words)) => act_on(alloc, &words, stores, input, clock),
    }
}

// Writes the text of an answer.
fn write_answer<O: Sink>(alloc: Global, answer: Answer, output: &mut O) -> Status
    ensures { WritesAnswer answer result.number (output_of O.Sink output.old) (output_of O.Sink output.new) }
{
    let status = answer.status();
    let Ok(text) = answer.text(alloc) else {
        return Status { number: 8 };
    };
    match output.write(text.as_slice()) {
        Ok(()) => status,
        Err(_) => Status { number: 5 },
    }
}

/// Does what the words of a command say, on the stores and streams that are handed in, and writes the text of its
/// answer. It knows `init` with a base address, which makes the catalog of no commits, `publish`, which commits the
/// publishes that the input holds, `unlist`, `list` and `delete` with pairs of an id and a version, which commit that of
/// these versions, `job` with `plain`, `semver2`, `content` or `auto`, which makes one round of that hive, `cursor` with one
/// of these, which tells the number of the hive's cursor, and `get` with a path, which writes the bytes of the document that
/// the path names, one of the catalog's or of one of the hives but `auto`.
///
/// A command opens the catalog before it looks at a path or at another area. A path is cut at its first `?` and isn't
/// decoded.
pub fn run_command<B: Blobs, I: Source, O: Sink, C: Clock>(
    alloc: Global,
    words: &[String],
    stores: Stores<B>,
    input: &mut I,
    output: &mut O,
    clock: &mut C,
) -> (Status, Stores<B>)
    ensures { RunsCommand (bounds B.Blobs I.Source O.Sink C.Clock) (texts words.now) (outside stores input.old output.old clock.old) result.0.number
        (outside result.1 input.new output.new clock.new) }
{
    let (answer, stores) = act(alloc, words, stores, input, clock);
    let status = write_answer(alloc, answer, output);
    (status, stores)
}
