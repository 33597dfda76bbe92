// The leaf document of a version.
ghost use Rattle.std.specs.Prelude.{◌≡◌, IfOk, string_bytes};
ghost use Rattle.serde_json.specs.View.{view};
ghost use Rattle.reg_docs.specs.Addresses.{root_of};
ghost use Rattle.reg_docs.specs.Documents.{registration_leaf_data, registration_leaf_object, registration_leaf_text};

use crate::addresses::{
    RegistrationHive, key_in, package_url, registration_index_url, registration_leaf_url, root_of,
};
use crate::catalog_entry::item_url;
use fold_core::{Bytes, Entry, NoMemory, Text};
use serde_json::{Value, json};
use std::alloc::{AllocError, Global};

fn registration_leaf_object(
    alloc: Global,
    url: String,
    entry: String,
    listed: bool,
    content: String,
    published: Text,
    registration: String,
) -> Result<Value, AllocError>
    ensures { IfOk result (λ v. view v ≡ registration_leaf_object (string_bytes url) (string_bytes entry) listed (string_bytes content) published (string_bytes registration)) }
{
    let published = published.into_string();
    json!(in alloc; {
        "@id": url,
        "catalogEntry": entry,
        "listed": listed,
        "packageContent": content,
        "published": published,
        "registration": registration
    })
}

fn registration_leaf_value(
    alloc: Global,
    base: &str,
    root: &str,
    key: &str,
    entry: &Entry,
) -> Result<Value, NoMemory>
    ensures { IfOk result (λ v. view v ≡ registration_leaf_data base.now root.now key.now entry.now) }
{
    let version = key_in(alloc, entry)?;
    let url = registration_leaf_url(alloc, root, key, version.as_str())?;
    let item = item_url(alloc, base, entry)?;
    let content = package_url(alloc, base, key, version.as_str())?;
    let published = entry.details.published_text(alloc)?;
    let registration = registration_index_url(alloc, root, key)?;
    let listed = entry.details.listed;
    Ok(registration_leaf_object(alloc, url, item, listed, content, published, registration)?)
}

#[tactic(auto, unfolding(crate::specs::Documents::registration_leaf_text))]
pub(crate) fn registration_leaf_bytes(
    alloc: Global,
    base: &str,
    root: &str,
    key: &str,
    entry: &Entry,
) -> Result<Bytes, NoMemory>
    ensures { IfOk result (λ b. b ≡ registration_leaf_text base.now root.now key.now entry.now) }
{
    let value = registration_leaf_value(alloc, base, root, key, entry)?;
    let bytes = value.to_vec(alloc)?;
    Ok(Bytes::of(bytes))
}

/// The leaf document of a version of the id with this key.
pub fn reg_leaf(
    alloc: Global,
    base: &str,
    hive: RegistrationHive,
    key: &str,
    entry: &Entry,
) -> Result<Bytes, NoMemory>
    ensures { IfOk result (λ b. b ≡ registration_leaf_text base.now (root_of base.now hive) key.now entry.now) }
{
    let root = root_of(alloc, base, hive)?;
    registration_leaf_bytes(alloc, base, &root, key, entry)
}
