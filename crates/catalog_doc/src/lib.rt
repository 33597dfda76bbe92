//! The catalog and its documents: which catalogs are lawful, what changes make of one, the index, the pages
//! and the leaves as a catalog determines them, and which catalog an area spells.
#![tactic(auto)]

mod change;
mod error;
mod head;
mod index;
mod laws;
mod leaf;
mod names;
mod page;
mod row;

pub use change::{Change, Changes, Committed};
pub use error::{CommitErr, DocErr};
pub use head::{PageHead, first_moment};
pub use index::index_bytes;
pub use laws::{
    commits_are_spelled, different_catalogs, one_page_changes, prefixes_are_catalogs,
    strangers_are_not_spelled,
};
pub use leaf::{details_bytes, leaf_bytes};
pub use names::{
    FIRST_PAGE_NAME, INDEX_NAME, commit_id, leaf_name, leaf_url, nupkg_name, nuspec_name,
    page_name, staged_name,
};
pub use page::{joined_head, joined_page_bytes, last_of, longer_page_bytes, page_bytes};
pub use row::Row;
