// What answers requests.
ghost use Rattle.std.specs.Prelude.{IfOk};
ghost use Rattle.feed_routes.specs.Services.{Acts, IsStatus};
ghost use Rattle.feed_routes.specs.Table.{HasRoute};

use crate::ask::Ask;
use http_wire::{Kind, Request};
use nuget_version::{Bytes, NoMemory};

/// What is answered to a request.
#[derive(Drop)]
pub struct Answer {
    pub status: u16,
    /// What the body is, where it isn't empty.
    pub kind: Kind,
    pub body: Bytes,
    /// Whether the service ends with it.
    pub stop: bool,
}

/// A service, which answers what requests ask for.
///
/// A request that asks for nothing isn't given to it.
pub trait Service {
    /// What is told of the service at a moment.
    ghost State: { Type 0 };

    ghost state: { Self → State };

    /// Whether it can be asked.
    ghost fit: { Self → Type 0 };

    /// How it acts.
    ghost acts: { Acts State };

    /// Answers the request, which asks for this. Want of memory is an answer too.
    fn answer(&mut self, request: &Request, ask: &Ask) -> Result<Answer, NoMemory>
        requires fit { fit self.old }
        requires routed { HasRoute request.now.method request.now.target ask.now }
        ensures fit { fit self.new }
        ensures acts { acts (state self.old) request.now result (state self.new) }
        ensures status { IfOk result (λ answer. IsStatus answer.status) };
}
