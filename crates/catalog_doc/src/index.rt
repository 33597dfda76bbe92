// What the index says of the pages.
ghost use Rattle.std.specs.Prelude.{◌≡◌, ◌<◌, ◌^◌, IfOk, length, map};
ghost use Rattle.serde_json.specs.View.{view};
ghost use Rattle.catalog_doc.specs.Documents.{head_data, head_object, heads_data, index_data, index_object, index_text, last_head};

use crate::head::{PageHead, first_moment};
use crate::names::{commit_id, index_url, page_url};
use pkg_meta::{Bytes, NoMemory};
use serde_json::{Value, json};
use std::alloc::{AllocError, Global};

fn head_object(
    alloc: Global,
    url: &str,
    commit: &str,
    stamp: &str,
    count: u32,
) -> Result<Value, AllocError>
    ensures { IfOk result (λ v. view v ≡ head_object url.now commit.now stamp.now count) }
{
    json!(in alloc; {"@id": url, "commitId": commit, "commitTimeStamp": stamp, "count": count})
}

fn head_value(alloc: Global, base: &str, page: u32, head: &PageHead) -> Result<Value, NoMemory>
    ensures { IfOk result (λ v. view v ≡ head_data base.now page head.now) }
{
    let url = page_url(alloc, base, page)?;
    let commit = commit_id(alloc, head.number)?;
    let stamp = head.stamp.print(alloc)?;
    let value = head_object(alloc, &url, &commit, stamp.as_str(), head.count)?;
    Ok(value)
}

fn head_values(alloc: Global, base: &str, heads: &[PageHead]) -> Result<Vec<Value>, NoMemory>
    requires { length heads.now < 2 ^ 32 }
    ensures { IfOk result (λ values. map view values.items ≡ heads_data base.now 0 heads.now) }
{
    let mut values = Vec::new(alloc);
    let mut page: u32 = 0;
    for head in heads {
        values.push(head_value(alloc, base, page, head)?)?;
        page += 1;
    }
    Ok(values)
}

// The last page's head, and that of no commits where there is no page.
fn last_head(heads: &[PageHead]) -> PageHead
    ensures { result ≡ last_head heads.now }
{
    match heads.last() {
        Some(head) => *head,
        None => PageHead {
            number: 0,
            stamp: first_moment(),
            count: 0,
        },
    }
}

fn index_object(
    alloc: Global,
    url: &str,
    commit: &str,
    stamp: &str,
    count: usize,
    heads: Vec<Value>,
) -> Result<Value, AllocError>
    ensures { IfOk result (λ v. view v ≡ index_object url.now commit.now stamp.now count (map view heads.items)) }
{
    json!(in alloc; {
        "@id": url,
        "commitId": commit,
        "commitTimeStamp": stamp,
        "count": count,
        "items": heads
    })
}

fn index_value(alloc: Global, base: &str, heads: &[PageHead]) -> Result<Value, NoMemory>
    requires { length heads.now < 2 ^ 32 }
    ensures { IfOk result (λ v. view v ≡ index_data base.now heads.now) }
{
    let last = last_head(heads);
    let url = index_url(alloc, base)?;
    let commit = commit_id(alloc, last.number)?;
    let stamp = last.stamp.print(alloc)?;
    let values = head_values(alloc, base, heads)?;
    let value = index_object(alloc, &url, &commit, stamp.as_str(), heads.len(), values)?;
    Ok(value)
}

/// The bytes of the index of pages with these heads.
#[tactic(auto, unfolding(crate::specs::Documents::index_text))]
pub fn index_bytes(alloc: Global, base: &str, heads: &[PageHead]) -> Result<Bytes, NoMemory>
    requires { length heads.now < 2 ^ 32 }
    ensures { IfOk result (λ b. b ≡ index_text base.now heads.now) }
{
    let value = index_value(alloc, base, heads)?;
    let bytes = value.to_vec(alloc)?;
    Ok(Bytes::of(bytes))
}
