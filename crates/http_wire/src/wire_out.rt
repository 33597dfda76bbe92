// The buffer of a link's responses.
ghost use Rattle.std.specs.Prelude.{◌≡◌, ◌↔◌, [], OnOk, IsSome};
ghost use Rattle.http.specs.StatusCode.{reason_phrase};
ghost use Rattle.http_wire.specs.Response.{wire_bytes};

use crate::response::{HEAD_ROOM, Kind, Verb, push_head};
use nuget_version::NoMemory;
use std::alloc::Global;
use std::marker::Model;

// The most memory that stays taken from one response to the next.
const MOST_KEPT: usize = 65_536;

/// The bytes of a response, in memory that is kept for the next one. A contract sees it as these bytes.
#[derive(Drop)]
pub struct WireOut {
    text: String,
    bytes: Vec<u8>,
}

impl Model for WireOut {
    ghost use Rattle.std.specs.Prelude.{List, ℕ};

    ghost Value = { List ℕ };

    ghost view = { λ out. out.bytes.items };
}

impl WireOut {
    /// No response. Memory is taken at the first one.
    pub fn new(alloc: Global) -> WireOut
        ensures { result ≡ [] }
    {
        WireOut {
            text: String::new(alloc),
            bytes: Vec::new(alloc),
        }
    }

    /// Makes the bytes of a response, as `response_bytes` does, in place of those before.
    pub fn make(
        &mut self,
        status: u16,
        kind: Kind,
        allow: Option<Verb>,
        last: bool,
        body: &[u8],
    ) -> Result<(), NoMemory>
        requires phrase { IsSome (reason_phrase status) }
        requires allowed { IsSome allow ↔ (status ≡ 405) }
        ensures { OnOk result (self.new ≡ wire_bytes status kind allow last body.now) }
    {
        self.text.clear();
        self.text.reserve(HEAD_ROOM)?;
        push_head(&mut self.text, status, kind, allow, last, body)?;
        self.bytes.clear();
        self.bytes.reserve(self.text.len() + body.len())?;
        self.bytes.extend_from_slice(self.text.as_bytes())?;
        self.bytes.extend_from_slice(body)?;
        Ok(())
    }

    /// The bytes of the response.
    pub fn as_slice(&self) -> &[u8]
        ensures { result.now ≡ self.now }
    {
        self.bytes.as_slice()
    }

    /// Lets the response go, and its memory too where that is more than 64 KiB.
    pub fn clear(&mut self)
        ensures { self.new ≡ [] }
    {
        self.bytes.clear();
        if self.bytes.capacity() > MOST_KEPT {
            self.bytes.shrink_to_fit();
        }
    }
}
