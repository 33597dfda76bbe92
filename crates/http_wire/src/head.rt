// The head of a request.
ghost use Rattle.std.specs.Prelude.{◌≡◌, length, IfOk, IfErr, IfSome, IfNone, IsUtf8};
ghost use Rattle.httparse.specs.Grammar.{RequestHead};
ghost use Rattle.httparse.specs.Spans.{IsRequestAt, IsRequestWithin};
ghost use Rattle.http_wire.specs.Ask.{IsHead, IsNoHead};

use crate::WireErr;
use crate::fields::{body_length, closes};
use httparse::Status;
use httparse::spans::{EMPTY_HEADER_SPAN, HeaderSpan, RequestSpans, parse_request};
use nuget_version::{NoMemory, Text};
use std::alloc::Global;

/// What a head says of its request.
#[derive(Drop)]
pub struct Head {
    pub method: Text,
    pub target: Text,
    pub last: bool,
    /// How many bytes of body follow.
    pub length: usize,
}

// The head that the bytes are, if they are one and nothing else.
fn parse(bytes: &[u8], fields: &mut [HeaderSpan]) -> Option<RequestSpans>
    requires { length fields.old ≡ 64 }
    ensures within { IfSome result (λ r. IsRequestWithin bytes.now fields.new r) }
    ensures some { IfSome result (λ r. (h : RequestHead) × IsHead bytes.now h × IsRequestAt bytes.now fields.new r h) }
    ensures all { IfSome result (λ r. r.len ≡ length bytes.now) }
    ensures none { IfNone result (IsNoHead bytes.now) }
{
    match parse_request(bytes, fields) {
        Ok(Status::Complete(head)) => {
            if head.len == bytes.len() {
                Some(head)
            } else {
                None
            }
        }
        _ => None,
    }
}

fn text(alloc: Global, bytes: &[u8]) -> Result<Text, NoMemory>
    requires { IsUtf8 bytes.now }
    ensures { IfOk result (λ t. t ≡ bytes.now) }
{
    match str::from_utf8(bytes) {
        Ok(text) => Text::copy_of(alloc, text),
        Err(_) => unreachable!(),
    }
}

ghost use Rattle.http_wire.specs.Heads.{IsHeadOf, RefusesHead};

/// Reads the head that the bytes are.
pub fn read_head(alloc: Global, bytes: &[u8]) -> Result<Head, WireErr>
    ensures found { IfOk result (IsHeadOf bytes.now) }
    ensures refused { IfErr result (RefusesHead bytes.now) }
{
    let mut fields = [EMPTY_HEADER_SPAN; 64];
    let head = match parse(bytes, &mut fields) {
        Some(head) => head,
        None => return Err(WireErr::Bad(400)),
    };
    let fields = &fields[..head.headers];
    let length = match body_length(bytes, head.version, fields) {
        Ok(length) => length,
        Err(status) => return Err(WireErr::Bad(status)),
    };
    let last = closes(bytes, head.version, fields);
    let method = text(alloc, head.method.of(bytes))?;
    let target = text(alloc, head.path.of(bytes))?;
    Ok(Head {
        method,
        target,
        last,
        length,
    })
}
