// The bytes of a response.
ghost use Rattle.std.specs.Prelude.{◌≡◌, ◌↔◌, ◌++◌, string_bytes, IfOk, OnOk, IsSome};
ghost use Rattle.http.specs.StatusCode.{reason_phrase};

use http::StatusCode;
use nuget_version::{Bytes, NoMemory};
use std::alloc::{AllocError, Global};

/// The kind of a body.
#[derive(Clone, Copy, Debug, PartialEq, Eq)]
pub enum Kind {
    /// `application/json`
    Json,
    /// `application/octet-stream`
    Octets,
    /// `application/xml`
    Xml,
    /// `text/plain`
    Plain,
}

/// A method that a target has.
#[derive(Clone, Copy, Debug, PartialEq, Eq)]
pub enum Verb {
    Get,
    Post,
}

ghost use Rattle.http_wire.specs.Response.{allow_line, close_line, length_line, media_type, status_line, type_line, verb_name, wire_bytes};

impl Kind {
    fn media_type(self) -> &'static str
        ensures { result.now ≡ media_type self }
    {
        match self {
            Kind::Json => "application/json",
            Kind::Octets => "application/octet-stream",
            Kind::Xml => "application/xml",
            Kind::Plain => "text/plain",
        }
    }
}

impl Verb {
    fn name(self) -> &'static str
        ensures { result.now ≡ verb_name self }
    {
        match self {
            Verb::Get => "GET",
            Verb::Post => "POST",
        }
    }
}

/// More than the bytes of a head.
pub(crate) const HEAD_ROOM: usize = 256;

// The status, which has a phrase.
fn code_of(status: u16) -> StatusCode
    requires { IsSome (reason_phrase status) }
    ensures { result ≡ status }
{
    match StatusCode::from_u16(status) {
        Ok(code) => code,
        Err(_) => unreachable!(),
    }
}

fn push_status(out: &mut String, status: u16) -> Result<(), AllocError>
    requires { IsSome (reason_phrase status) }
    ensures { OnOk result (string_bytes out.new ≡ string_bytes out.old ++ status_line status) }
{
    let code = code_of(status);
    write!(out, "HTTP/1.1 {code}\r\n")
}

fn push_close(out: &mut String, last: bool) -> Result<(), AllocError>
    ensures { OnOk result (string_bytes out.new ≡ string_bytes out.old ++ close_line last) }
{
    if last {
        out.push_str("Connection: close\r\n")?;
    }
    Ok(())
}

fn push_allow(out: &mut String, allow: Option<Verb>) -> Result<(), AllocError>
    ensures { OnOk result (string_bytes out.new ≡ string_bytes out.old ++ allow_line allow) }
{
    match allow {
        None => Ok(()),
        Some(verb) => write!(out, "Allow: {}\r\n", verb.name()),
    }
}

fn push_length(out: &mut String, size: usize) -> Result<(), AllocError>
    ensures { OnOk result (string_bytes out.new ≡ string_bytes out.old ++ length_line size) }
{
    write!(out, "Content-Length: {size}\r\n")
}

fn push_type(out: &mut String, kind: Kind, body: &[u8]) -> Result<(), AllocError>
    ensures { OnOk result (string_bytes out.new ≡ string_bytes out.old ++ type_line kind body.now) }
{
    match body {
        [] => Ok(()),
        [_, ..] => write!(out, "Content-Type: {}\r\n", kind.media_type()),
    }
}

/// Writes the head of a response: all but its body.
pub(crate) fn push_head(
    out: &mut String,
    status: u16,
    kind: Kind,
    allow: Option<Verb>,
    last: bool,
    body: &[u8],
) -> Result<(), AllocError>
    requires { IsSome (reason_phrase status) }
    ensures { OnOk result (string_bytes out.new ++ body.now ≡ string_bytes out.old ++ wire_bytes status kind allow last body.now) }
{
    push_status(out, status)?;
    push_close(out, last)?;
    push_allow(out, allow)?;
    push_length(out, body.len())?;
    push_type(out, kind, body)?;
    out.push_str("\r\n")
}

/// The bytes of a response (RFC 9112, section 6.3), with the methods that its target has where the status is
/// 405 (RFC 9110, section 15.5.6).
pub fn response_bytes(
    alloc: Global,
    status: u16,
    kind: Kind,
    allow: Option<Verb>,
    last: bool,
    body: &[u8],
) -> Result<Bytes, NoMemory>
    requires phrase { IsSome (reason_phrase status) }
    requires allowed { IsSome allow ↔ (status ≡ 405) }
    ensures { IfOk result (λ bytes. bytes ≡ wire_bytes status kind allow last body.now) }
{
    let mut head = String::with_capacity(alloc, HEAD_ROOM + body.len())?;
    push_head(&mut head, status, kind, allow, last, body)?;
    let mut bytes = head.into_bytes();
    bytes.extend_from_slice(body)?;
    Ok(Bytes::of(bytes))
}
