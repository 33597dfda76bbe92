// The answers of all commands, with what is written for them and their statuses.
ghost use Rattle.std.specs.Prelude.{◌≡◌, IfOk};
ghost use Rattle.std.specs.Cow.{cow_slice_items};

use admin_wire::{Line, MEMORY_LINE, line_bytes, line_status};
use feed_base::Status;
use pkg_meta::{Bytes, NoMemory};
use std::alloc::Global;
use std::borrow::CowSlice;

/// What a command answers.
#[derive(Drop)]
pub enum Answer {
    /// A reply line.
    Reply(Line),
    /// The document that was asked for has these bytes.
    Document(Bytes),
    /// The words have no meaning.
    Usage,
}

impl Answer {
    ghost use Rattle.feed_app.specs.Answers.{answer_status, answer_text};

    /// What is written for it: a document's bytes alone, or a line with its line feed.
    pub(crate) fn text<'a>(self, alloc: Global) -> Result<CowSlice<'a, u8, Global>, NoMemory>
        ensures { IfOk result (λ text. cow_slice_items text ≡ answer_text self) }
    {
        let line = match self {
            Answer::Reply(Line::Memory) => MEMORY_LINE,
            Answer::Reply(line) => return Ok(CowSlice::Owned(line_bytes(alloc, &line)?.into_vec())),
            Answer::Document(bytes) => return Ok(CowSlice::Owned(bytes.into_vec())),
            Answer::Usage =>
                "usage: feed <folder> init|publish|unlist|list|delete|job|cursor|get|verify|script|generate|serve\n",
        };
        Ok(CowSlice::Borrowed(line.as_bytes()))
    }

    /// The status that goes with what is written.
    pub(crate) fn status(&self) -> Status
        ensures { result.number ≡ answer_status self.now }
    {
        match self {
            Answer::Reply(line) => line_status(line).unwrap_or(Status { number: 0 }),
            Answer::Document(_) => Status { number: 0 },
            Answer::Usage => Status { number: 2 },
        }
    }
}
