// Changes of listing whose versions have that listing.
ghost use Rattle.std.specs.Prelude.{◌≡◌, List, IfSome};
ghost use Rattle.pkg_meta.specs.Catalog.{Catalog};
ghost use Rattle.catalog_doc.specs.Verdict.{already};
ghost use Rattle.catalog_doc.specs.declared.change.Change.{Change};
ghost use Rattle.commit_plan.specs.Plans.{has_listing_by, IsAlreadyAt, IsKnownFor};

use crate::last::LastItem;
use catalog_doc::{Change, CommitErr};

// The refusal of a change at a place whose version has the listing that is wanted.
fn has_listing(place: u32, wanted: bool, last: &LastItem) -> Option<CommitErr>
    ensures kind { IfSome result (IsAlreadyAt place) }
    ensures exact { result ≡ has_listing_by place wanted last.now }
{
    match last {
        LastItem::Listing { number, details } if details.listed == wanted => {
            Some(CommitErr::Already(place, *number))
        }
        _ => None,
    }
}

/// Why the change at a place is refused whose version has the listing that it wants, by the version's last item.
pub(crate) fn already_at(place: u32, change: &Change, last: &LastItem) -> Option<CommitErr>
    ensures kind { IfSome result (IsAlreadyAt place) }
    ensures exact { (cs : Catalog) (earlier : List Change) → IsKnownFor cs change.now last.now → result ≡ already cs place earlier change.now }
{
    match change {
        Change::Unlist { .. } => has_listing(place, false, last),
        Change::Relist { .. } => has_listing(place, true, last),
        Change::Publish { .. } => None,
        Change::Delete { .. } => None,
    }
}
