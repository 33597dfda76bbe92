// The root that a path may begin with.
ghost use Rattle.std.specs.Prelude.{◌≡◌, ◌++◌, List, ℕ, MatchOption, Some};
ghost use Rattle.feed_routes.specs.Roots.{IsBehind, root_segment, root_text};
ghost use Rattle.feed_routes.specs.declared.roots.Root.{Root};

use crate::roots::Root;
use crate::split::second_segment;

// The root whose second segment this is.
fn root_of_segment(segment: &str) -> Option<Root>
    ensures { MatchOption result ((root : Root) → segment.now ≡ root_segment root → ⊥) (λ root. segment.now ≡ root_segment root) }
{
    match segment {
        "index.json" => Some(Root::Index),
        "catalog" => Some(Root::Catalog),
        "registration" => Some(Root::Plain),
        "registration-semver2" => Some(Root::SemVer2),
        "flat" => Some(Root::Flat),
        "autocomplete" => Some(Root::Autocomplete),
        "publish" => Some(Root::Publish),
        "unlist" => Some(Root::Unlist),
        "list" => Some(Root::Relist),
        "delete" => Some(Root::Delete),
        "job" => Some(Root::Job),
        "cursor" => Some(Root::Cursor),
        "stop" => Some(Root::Stop),
        _ => None,
    }
}

/// The root of the path, by its second segment. A path that doesn't begin with a root may have one too.
pub(crate) fn find_root(path: &str) -> Option<Root>
    ensures { (root : Root) (rest : List ℕ) → path.now ≡ root_text root ++ rest → IsBehind root rest → result ≡ Some root }
{
    root_of_segment(second_segment(path))
}
