//! What a feed says of a package: its metadata, the items that commits make of it, and the catalog's commits.
#![tactic(auto)]

mod commit;
mod copies;
mod dependency;
mod entry;
mod error;
mod item;
mod kinds;
mod laws;
mod meta;
mod reading;
mod state;
mod trees;
mod values;

pub use commit::{Commit, Staged, Stored};
pub use dependency::{Dep, DepGroup};
pub use entry::Entry;
pub use error::MetaErr;
pub use item::{Details, Item};
pub use laws::{printed_reads_back, reasons_exclude};
pub use meta::{Addresses, Identity, Meta, Prose, Release, Texts};
pub use nuget_version::{Bytes, Many, NoMemory, Text, Version};
pub use package_id::PackageId;
pub use reading::{MAX_META_LEN, read_texts};
pub use state::StateDoc;
pub use ticks::{Ticks, after};
pub use trees::{put_addresses, put_array_if, put_text, put_text_if, text_values};
pub use values::{copy_text_in, copy_texts_of, flag_in, items_in, text_in};
pub use version_range::VersionRange;
