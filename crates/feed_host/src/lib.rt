//! The host: the requests of a link are answered, one after the other, by a service and by the table of routes.
//!
//! What is answered to a request is the relation `IsReply` of specs/Replies.antt, and what becomes of a link is
//! `Serves` of specs/Serving.antt, in the words of `http_wire`'s `Talk`. `serve_asks` keeps it over any link and
//! any service. It takes `Wait`, since a link may never end.
#![tactic(auto)]

mod end;
mod laws;
mod reply;
mod sending;
mod serving;

pub use end::End;
pub use laws::first_of_its_talk;
pub use serving::serve_asks;
