// Stores that begin with another catalog's pages and index: an opening reads no leaf, and a publish of another version none.
use crate::feeds::opened;
use blob_store::{Blobs, Fail as Fault, MemBlobs};
use catalog_core::Catalog;
use pkg_meta::{Bytes, NoMemory};
use std::alloc::Global;

/// A document with its name.
#[derive(Drop)]
pub struct Document {
    name: String,
    bytes: Bytes,
}

fn add_document(
    alloc: Global,
    documents: &mut Vec<Document>,
    catalog: &mut Catalog<MemBlobs>,
    name: String,
) -> Result<(), NoMemory> {
    let Ok(Some(bytes)) = catalog.doc(alloc, &name) else {
        return Err(NoMemory);
    };
    documents.push(Document { name, bytes })?;
    Ok(())
}

/// The first so many pages of a catalog, and its index.
pub fn documents(
    alloc: Global,
    catalog: &mut Catalog<MemBlobs>,
    pages: u32,
) -> Result<Vec<Document>, NoMemory> {
    let mut documents = Vec::new(alloc);
    for page in 0..pages {
        let name = format!(in alloc; "page{page}.json")?;
        add_document(alloc, &mut documents, catalog, name)?;
    }
    let index = String::from_str(alloc, "index.json")?;
    add_document(alloc, &mut documents, catalog, index)?;
    Ok(documents)
}

/// The catalog of a store with these documents, whose calls of these numbers fail; a call puts each of the documents, and
/// then it is opened until it opens.
pub fn copied(
    alloc: Global,
    documents: &[Document],
    fails: &[Fault],
) -> Result<Catalog<MemBlobs>, NoMemory> {
    let mut area = MemBlobs::failing(alloc, fails)?;
    for document in documents {
        let _done = area.put(alloc, &document.name, document.bytes.as_slice());
    }
    opened(alloc, area).ok_or(NoMemory)
}

/// The calls from the first of these numbers up to the last, of which each fails.
pub fn failing(alloc: Global, first: u64, last: u64, took: bool) -> Result<Vec<Fault>, NoMemory> {
    let mut fails = Vec::new(alloc);
    for call in first..=last {
        fails.push(Fault { call, took })?;
    }
    Ok(fails)
}
