//! HTTP/1.1 on a link: requests read of it, and the bytes of responses.
//!
//! What the front of some bytes is, a request with the bytes behind it, a refusal, nothing but empty lines
//! or less than a request, is the relation `Ask` of specs/Ask.antt. `read_request` answers what `Ask` says
//! of the bytes that are not answered yet, however they come in, and leaves the bytes behind the request for
//! the next call. `Talk` of specs/Talk.antt are the requests of a whole input.
//!
//! This crate opens no socket and takes no handle: a link is a type parameter.
#![tactic(auto)]

mod body;
mod fields;
mod head;
mod laws;
mod length;
mod reading;
mod request;
mod response;
mod scan;
mod wire;
mod wire_in;
mod wire_out;

pub use laws::{leads_on, one_answer, one_talk, refusals_have_statuses, requests_stand, talk_on};
pub use nuget_version::{Bytes, NoMemory, Text};
pub use reading::read_request;
pub use request::{Request, WireErr};
pub use response::{Kind, Verb, response_bytes};
pub use wire::WireIn;
pub use wire_out::WireOut;
