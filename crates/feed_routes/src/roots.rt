// What the paths of the table begin with.
ghost use Rattle.std.specs.Prelude.{◌≡◌};
ghost use Rattle.feed_routes.specs.Roots.{root_text};

/// What the paths of a route begin with: the whole path, or what stands before the names or the hives.
#[derive(Clone, Copy, Debug, PartialEq, Eq)]
pub(crate) enum Root {
    Index,
    Catalog,
    Plain,
    SemVer2,
    Flat,
    Autocomplete,
    Publish,
    Unlist,
    Relist,
    Delete,
    Job,
    Cursor,
    Stop,
}

impl Root {
    /// Its text.
    pub(crate) fn text(self) -> &'static str
        ensures { result.now ≡ root_text self }
    {
        match self {
            Root::Index => "/v3/index.json",
            Root::Catalog => "/v3/catalog/",
            Root::Plain => "/v3/registration/",
            Root::SemVer2 => "/v3/registration-semver2/",
            Root::Flat => "/v3/flat/",
            Root::Autocomplete => "/v3/autocomplete",
            Root::Publish => "/admin/publish",
            Root::Unlist => "/admin/unlist",
            Root::Relist => "/admin/list",
            Root::Delete => "/admin/delete",
            Root::Job => "/admin/job/",
            Root::Cursor => "/admin/cursor/",
            Root::Stop => "/admin/stop",
        }
    }
}
