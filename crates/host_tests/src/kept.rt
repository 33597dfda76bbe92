// A service of bodies that are kept by their targets.
ghost use Rattle.std.specs.Prelude.{◌≡◌, ⊤, IfOk};
ghost use Rattle.feed_routes.specs.Services.{IsStatus};

use feed_base::{Bytes, NoMemory};
use feed_routes::{Answer, Ask, CommitWord, Service};
use http_wire::{Kind, Request};
use nuget_version::Text;
use std::alloc::Global;

/// A body, and the target that it is answered at.
#[derive(Drop)]
struct Entry {
    target: Text,
    body: Bytes,
}

/// Bodies by their targets. A publish keeps its body as the service index, a delete runs out of memory, and a
/// stop is answered.
#[derive(Drop)]
pub struct Kept {
    alloc: Global,
    entries: Vec<Entry>,
}

impl Kept {
    pub fn new(alloc: Global) -> Kept {
        Kept {
            alloc,
            entries: Vec::new(alloc),
        }
    }

    /// Keeps one more body, in front of an earlier one of its target.
    pub fn keep(&mut self, target: &str, body: &[u8]) -> Result<(), NoMemory> {
        let entry = Entry {
            target: Text::copy_of(self.alloc, target)?,
            body: Bytes::copy_of(self.alloc, body)?,
        };
        self.entries.push(entry)?;
        Ok(())
    }

    // The body of the target, or an answer without one.
    fn found(&self, target: &str) -> Result<Answer, NoMemory>
        ensures { IfOk result (λ answer. IsStatus answer.status) }
    {
        for entry in self.entries.iter().rev() {
            if entry.target.as_str() == target {
                return Ok(answer(200, Kind::Json, entry.body.copy(self.alloc)?));
            }
        }
        Ok(answer(404, Kind::Json, Bytes::of(Vec::new(self.alloc))))
    }
}

fn answer(status: u16, kind: Kind, body: Bytes) -> Answer
    ensures { result.status ≡ status }
{
    Answer {
        status,
        kind,
        body,
        stop: false,
    }
}

impl Service for Kept {
    ghost State = { ⊤ };

    ghost state = { λ _. tt };

    ghost fit = { λ _. ⊤ };

    ghost acts = { λ _ _ _ _. ⊤ };

    fn answer(&mut self, request: &Request, ask: &Ask) -> Result<Answer, NoMemory> {
        match ask {
            Ask::Commit(CommitWord::Publish) => {
                self.keep("/v3/index.json", request.body.as_slice())?;
                Ok(answer(201, Kind::Plain, Bytes::copy_of(self.alloc, b"kept\n")?))
            }
            Ask::Commit(CommitWord::Delete) => Err(NoMemory),
            Ask::Stop => Ok(Answer {
                status: 200,
                kind: Kind::Plain,
                body: Bytes::copy_of(self.alloc, b"stopping\n")?,
                stop: true,
            }),
            _ => self.found(request.target.as_str()),
        }
    }
}
