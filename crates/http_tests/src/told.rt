// What the requests of a link are read as, in one line.
use feed_base::Link;
use http_wire::{Request, WireErr, WireIn, read_request};
use std::alloc::{AllocError, Global};
use std::str;

// More requests than a row has.
const MOST: u64 = 100;

fn push_request(out: &mut String, request: &Request) -> Result<(), AllocError> {
    let method = request.method.as_str();
    let target = request.target.as_str();
    let goes_on = if request.last { "last" } else { "open" };
    let body = request.body.as_slice();
    let size = body.len();
    let body = str::from_utf8(body).unwrap_or("?");
    write!(out, "{method} {target} {goes_on} {size}:{body}")
}

fn push_error(out: &mut String, error: WireErr) -> Result<(), AllocError> {
    match error {
        WireErr::Closed => out.push_str("closed"),
        WireErr::Bad(status) => write!(out, "{status}"),
        WireErr::ReadFault => out.push_str("fault"),
        WireErr::Memory => out.push_str("memory"),
    }
}

// Tells the next request, and answers whether another may follow.
fn push_next<L: Link>(
    alloc: Global,
    out: &mut String,
    wire: &mut WireIn,
    link: &mut L,
) -> Result<bool, AllocError> {
    match read_request(alloc, wire, link) {
        Ok(request) => {
            push_request(out, &request)?;
            Ok(!request.last)
        }
        Err(error) => {
            push_error(out, error)?;
            Ok(false)
        }
    }
}

/// The answers up to the first refusal, the last request or the end, with `; ` between.
pub fn told<L: Link>(alloc: Global, link: &mut L) -> Result<String, AllocError> {
    let mut out = String::new(alloc);
    let mut wire = WireIn::new(alloc);
    for _ in 0..MOST {
        if !push_next(alloc, &mut out, &mut wire, link)? {
            break;
        }
        out.push_str("; ")?;
    }
    Ok(out)
}
