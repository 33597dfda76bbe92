// What is asked for, and why nothing is.
ghost use Rattle.std.specs.Prelude.{◌≡◌};
ghost use Rattle.http_wire.specs.Response.{verb_name};
ghost use Rattle.feed_routes.specs.Table.{verb_of};

use fold_core::HiveName;
use http_wire::Verb;
use nuget_version::{NoMemory, Text};
use std::fmt;

/// What is to be done with the versions that a body names.
#[derive(Clone, Copy, Debug, PartialEq, Eq)]
pub enum CommitWord {
    Publish,
    Unlist,
    /// List again.
    Relist,
    Delete,
}

/// What a request asks for.
#[derive(Drop)]
pub enum Ask {
    /// The service index.
    Index,
    /// The catalog's document of this name.
    CatalogDoc(Text),
    /// The document of this name in the area of a registration hive.
    Registration(HiveName, Text),
    /// The document of this name in the area of the content hive.
    Flat(Text),
    /// Autocomplete, with this query.
    Autocomplete(Text),
    /// A commit of what the body names.
    Commit(CommitWord),
    /// A round of the hive's job.
    Job(HiveName),
    /// The hive's cursor.
    Cursor(HiveName),
    /// The end of serving.
    Stop,
}

/// Why a request asks for nothing.
#[derive(Clone, Copy, Debug, PartialEq, Eq)]
pub enum RouteErr {
    NotFound,
    /// The path is one of this method alone.
    Method(Verb),
    Memory,
}

// The method's name.
pub(crate) fn name_of(verb: Verb) -> &'static str
    ensures { result.now ≡ verb_name verb }
{
    match verb {
        Verb::Get => "GET",
        Verb::Post => "POST",
    }
}

impl fmt::Display for RouteErr {
    fn fmt<W: fmt::Write>(&self, f: &mut fmt::Formatter<W>) -> fmt::Result {
        match self {
            RouteErr::NotFound => f.write_str("no such path"),
            RouteErr::Method(verb) => {
                let name = name_of(*verb);
                write!(f, "the path is one of {name} alone")
            }
            RouteErr::Memory => f.write_str("out of memory"),
        }
    }
}

impl From<NoMemory> for RouteErr {
    ghost use Rattle.feed_routes.specs.declared.ask.RouteErr.TheVariants.{Memory};

    ghost from_gives = { λ _ e. e ≡ Memory };

    fn from(_: NoMemory) -> Self {
        RouteErr::Memory
    }
}

impl Ask {
    /// The one method by which it is asked.
    pub fn verb(&self) -> Verb
        ensures { result ≡ verb_of self.now }
    {
        match self {
            Ask::Commit(_) | Ask::Job(_) | Ask::Stop => Verb::Post,
            Ask::Index
            | Ask::CatalogDoc(_)
            | Ask::Registration(..)
            | Ask::Flat(_)
            | Ask::Autocomplete(_)
            | Ask::Cursor(_) => Verb::Get,
        }
    }
}
