// What is answered to a request.
ghost use Rattle.std.specs.Prelude.{◌≡◌, IfOk};
ghost use Rattle.feed_routes.specs.Services.{IsStatus};
ghost use Rattle.http.specs.StatusCode.{reason_phrase};

use admin_wire::{Line, line_bytes};
use feed_routes::Answer;
use http_wire::{Kind, Request, Verb};
use nuget_version::{Bytes, NoMemory};
use std::alloc::Global;

/// A response, but for whether its link ends behind it.
#[derive(Drop)]
pub struct Reply {
    pub status: u16,
    /// What the body is, where it isn't empty.
    pub kind: Kind,
    /// The path's method, where the status is 405.
    pub allow: Option<Verb>,
    pub body: Bytes,
    /// Whether the service ends with it.
    pub stop: bool,
}

ghost use Rattle.feed_host.specs.Replies.{IsSendable, bare, for_answer, is_last_reply};

impl Reply {
    /// One without a body.
    pub fn bare(alloc: Global, status: u16, allow: Option<Verb>) -> Reply
        ensures { result ≡ bare status allow }
    {
        Reply {
            status,
            kind: Kind::Plain,
            allow,
            body: Bytes::of(Vec::new(alloc)),
            stop: false,
        }
    }

    /// That of a service's answer; of its want of memory 507, with the line that says so.
    pub fn of_answer(alloc: Global, answer: Result<Answer, NoMemory>) -> Result<Reply, NoMemory>
        requires { IfOk answer (λ a. IsStatus a.status) }
        ensures is { IfOk result (λ reply. reply ≡ for_answer answer) }
        ensures sendable { IfOk result IsSendable }
    {
        match answer {
            Ok(answer) => Ok(Reply {
                status: answer.status,
                kind: answer.kind,
                allow: None,
                body: answer.body,
                stop: answer.stop,
            }),
            Err(NoMemory) => {
                let mut reply = Reply::bare(alloc, 507, None);
                reply.body = line_bytes(alloc, &Line::Memory)?;
                Ok(reply)
            }
        }
    }

    /// Whether the link ends behind it, as the reply to this request.
    pub fn is_last(&self, request: &Request) -> bool
        ensures { result ≡ is_last_reply request.now self.now }
    {
        request.last || self.stop
    }
}
