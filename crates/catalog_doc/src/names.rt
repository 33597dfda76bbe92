// Names in the catalog's area, URLs and commit ids.
ghost use Rattle.std.specs.Prelude.{◌≡◌, IfOk, string_bytes};
ghost use Rattle.catalog_doc.specs.Names.{catalog_url, index_name, page_name, leaf_name, nupkg_name, nuspec_name, place_name, staged_name};
ghost use Rattle.catalog_doc.specs.Documents.{commit_id};

use pkg_meta::NoMemory;
use std::alloc::{AllocError, Global};
use uuid::Uuid;

pub const INDEX_NAME: &str = "index.json";

/// The name of the first page.
pub const FIRST_PAGE_NAME: &str = "page0.json";

pub fn page_name(alloc: Global, page: u32) -> Result<String, AllocError>
    ensures { IfOk result (λ name. string_bytes name ≡ page_name page) }
{
    format!(in alloc; "page{page}.json")
}

pub fn leaf_name(alloc: Global, number: u32, place: u32) -> Result<String, AllocError>
    ensures { IfOk result (λ name. string_bytes name ≡ leaf_name number place) }
{
    format!(in alloc; "data/{number}/{place}.json")
}

pub fn nupkg_name(alloc: Global, number: u32, place: u32) -> Result<String, AllocError>
    ensures { IfOk result (λ name. string_bytes name ≡ nupkg_name number place) }
{
    format!(in alloc; "staged/{number}/{place}.nupkg")
}

pub fn nuspec_name(alloc: Global, number: u32, place: u32) -> Result<String, AllocError>
    ensures { IfOk result (λ name. string_bytes name ≡ nuspec_name number place) }
{
    format!(in alloc; "staged/{number}/{place}.nuspec")
}

/// The name of the manifest or the package that a publish brought.
pub fn staged_name(alloc: Global, number: u32, place: u32, nuspec: bool) -> Result<String, NoMemory>
    ensures { IfOk result (λ name. string_bytes name ≡ staged_name number place nuspec) }
{
    if nuspec {
        Ok(nuspec_name(alloc, number, place)?)
    } else {
        Ok(nupkg_name(alloc, number, place)?)
    }
}

pub(crate) fn place_name(alloc: Global, number: u32, place: u32) -> Result<String, AllocError>
    ensures { IfOk result (λ name. string_bytes name ≡ place_name number place) }
{
    format!(in alloc; "{number}/{place}")
}

pub(crate) fn catalog_url(alloc: Global, base: &str, name: &str) -> Result<String, AllocError>
    ensures { IfOk result (λ url. string_bytes url ≡ catalog_url base.now name.now) }
{
    format!(in alloc; "{base}v3/catalog/{name}")
}

pub(crate) fn index_url(alloc: Global, base: &str) -> Result<String, AllocError>
    ensures { IfOk result (λ url. string_bytes url ≡ catalog_url base.now index_name) }
{
    catalog_url(alloc, base, INDEX_NAME)
}

pub(crate) fn page_url(alloc: Global, base: &str, page: u32) -> Result<String, AllocError>
    ensures { IfOk result (λ url. string_bytes url ≡ catalog_url base.now (page_name page)) }
{
    let name = page_name(alloc, page)?;
    catalog_url(alloc, base, &name)
}

/// Where the leaf of the item at a place of a commit is served.
pub fn leaf_url(alloc: Global, base: &str, number: u32, place: u32) -> Result<String, AllocError>
    ensures { IfOk result (λ url. string_bytes url ≡ catalog_url base.now (leaf_name number place)) }
{
    // Behind the base address come at most 42 bytes.
    let mut url = String::with_capacity(alloc, base.len().saturating_add(42))?;
    write!(url, "{base}v3/catalog/data/{number}/{place}.json")?;
    Ok(url)
}

#[tactic(auto, unfolding(crate::specs::Documents::commit_id))]
pub fn commit_id(alloc: Global, number: u32) -> Result<String, AllocError>
    ensures { IfOk result (λ id. string_bytes id ≡ commit_id number) }
{
    let mut buffer = Uuid::encode_buffer();
    let text = Uuid::from_u128(number as u128)
        .hyphenated()
        .encode_lower(&mut buffer);
    String::from_str(alloc, text)
}
