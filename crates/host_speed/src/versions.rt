// A service that has one document.
ghost use Rattle.std.specs.Prelude.{⊤};

use feed_routes::{Answer, Ask, Service};
use http_wire::{Bytes, Kind, NoMemory, Request};
use std::alloc::Global;

/// Answers each request with the same 22 bytes.
#[derive(Drop)]
pub struct Versions {
    alloc: Global,
}

impl Versions {
    pub fn new(alloc: Global) -> Versions {
        Versions { alloc }
    }
}

impl Service for Versions {
    ghost State = { ⊤ };

    ghost state = { λ _. tt };

    ghost fit = { λ _. ⊤ };

    ghost acts = { λ _ _ _ _. ⊤ };

    fn answer(&mut self, _request: &Request, _ask: &Ask) -> Result<Answer, NoMemory> {
        let body = Bytes::copy_of(self.alloc, b"{\"versions\":[\"1.0.0\"]}")?;
        Ok(Answer {
            status: 200,
            kind: Kind::Json,
            body,
            stop: false,
        })
    }
}
