// Many versions: which documents there are, in which order, and which pages.
use crate::catalogs::{BASE, docs, publishes, stamp, text_of, told};
use crate::same::same;
use fold_core::{Commit, Doc, NoMemory, from_scratch};
use reg_docs::{Plain, RegistrationHive, SemVer2, reg_index, reg_leaf, reg_pages};
use serde_json::Value;
use sha2::{Digest, Sha512};
use std::alloc::{AllocError, Global};
use std::test::Fail;

type Ends = [&'static str; 8];

// Ends of versions that aren't SemVer 2.0.0, and of some that are.
const ENDS: Ends = [
    ".0-alpha", ".0-Beta", ".0-b-2", ".0-rc10", ".0-rc2", ".0-1", ".0", ".0.1",
];

const MIXED_ENDS: Ends = [
    ".0-b.10", ".0-b.2", ".0-b.a", ".0-Beta", ".0-rc", ".0-r.1+x", ".0+x", ".0.1",
];

// Counts of versions and of each hive's documents, and the SHA-512 of all their names and texts in order; last the mixed ends.
const TOLD: &str = "\
1 2 2 2dc9dc009810c8bab0021e08c9b751adea40d3d1f9e528f37c6e1a5fcd0f8b0a6cbc3dd03e310f3af9f61b68584c10934e284cb598c9a3e080bc7a50c2d2b65e
63 64 64 70f84320bb3f92e50977b9673a029bc28c2333b0017db0aa42fd6faefe59625b4282ba14dacc0a4063937e80224aba447d59d04a775f46eb274cd503ade9df53
64 65 65 8668d62c20b0c576d1329c732d8a723d2fefdafe255d77569d99442d4128eca9e4eb699660395b1e529a988fa5cdc06b99196ac77c8610eb0b3f7aa4f3348852
65 66 66 6d29df803df3a1bd1645900fe23778238998dff206d9bcd3a719a44bf10669be6758889cbc8eb88a6ab46a2628d54899e6550ff2ca7eff21acf89df6b9505042
127 128 128 59db92b36ab0da367a3216ecaada98e88edc483578ceca898e221f98b1c4d6122f444c57598d45592cc1407fcbb334af12f4e2ed71721bb6eaaf86411f8bcaff
128 131 131 5ed230932b975459e93dd478f11355593359c91f647e58dfef6501921ac41da00592cfe8185f45175e21cdefe9095ee08740a507abfcdbaa34c6c2439193b0f4
129 133 133 d8c837b78dce79dfa50772560ebba39ece27e2c6013ac0ad782a8e2db1811bf5b1f0fb268dfca6f6a6b1b633518c0dca59b25a0cd885923e8c09ac863881176c
200 205 205 54ec199bfd4d595e8b63c77cd4c87bba451299cf4b5d276976ea77a184998cdd8474e8eeb01a24f5814077281cfe1a39e76845f7759b552d934f81dda54f13b9
200 76 205 96975e6775e3d2f782f0027de38a2da579b50cfcd12ae26b51c3958cd60b6aa4111c4ab598ba2ceaf2daf2f61c94ff60b2bbd3e4cdbb6acb393ca6ff6714fa8c
";

fn metadata(alloc: Global, minor: u32, end: &str) -> Result<String, AllocError> {
    format!(in alloc; "{{\"id\":\"Foo\",\"version\":\"1.{minor}{end}\"}}")
}

// Packages in an order that isn't that of their versions; 101 has no divisor in common with the counts.
fn shuffled(alloc: Global, ends: &Ends, count: u16) -> Result<Vec<String>, AllocError> {
    let mut texts = Vec::new(alloc);
    for at in 0..count {
        let version = u32::from(at) * 101 % u32::from(count);
        texts.push(metadata(alloc, version / 8, ends[(version % 8) as usize])?)?;
    }
    Ok(texts)
}

fn commits(alloc: Global, texts: &[String]) -> Result<Vec<Commit>, NoMemory> {
    let mut commits = Vec::new(alloc);
    for (number, run) in (1..100).zip(texts.chunks(64)) {
        commits.push(publishes(alloc, number, run)?)?;
    }
    Ok(commits)
}

fn case(alloc: Global, ends: &Ends, count: u16) -> Result<String, NoMemory> {
    let commits = commits(alloc, &shuffled(alloc, ends, count)?)?;
    let plain = docs::<Plain>(alloc, &commits)?.len();
    let semver2 = docs::<SemVer2>(alloc, &commits)?.len();
    let mut hasher = Sha512::new();
    hasher.update(told::<Plain>(alloc, &commits)?.as_bytes());
    hasher.update(told::<SemVer2>(alloc, &commits)?.as_bytes());
    let digest = hex::encode(alloc, hasher.finalize())?;
    Ok(format!(in alloc; "{count} {plain} {semver2} {digest}\n")?)
}

#[test]
fn documents_of_many_versions(rt: HostRuntime) -> Result<(), Fail> {
    let mut told = String::new(rt.alloc());
    for count in [1, 63, 64, 65, 127, 128, 129, 200] {
        told.push_str(&case(rt.alloc(), &ENDS, count)?)?;
    }
    told.push_str(&case(rt.alloc(), &MIXED_ENDS, 200)?)?;
    assert_eq!(rt; told.as_str(), TOLD);
    Ok(())
}

// Of versions 1.n.0 with n below a number, without one n, the pages as the index has them: the address behind
// the id's, the bounds, the count and how many versions stand there; then the names of the stored pages.
const PAGES: &str = "\
128 without 64
index.json#page/1.0.0/1.63.0 1.0.0 1.63.0 64 64
index.json#page/1.65.0/1.127.0 1.65.0 1.127.0 63 63
128 without 128
page/1.0.0/1.63.0.json 1.0.0 1.63.0 64 0
page/1.64.0/1.127.0.json 1.64.0 1.127.0 64 0
d/foo/page/1.0.0/1.63.0.json
d/foo/page/1.64.0/1.127.0.json
64 without 64
index.json#page/1.0.0/1.63.0 1.0.0 1.63.0 64 64
65 without 65
index.json#page/1.0.0/1.63.0 1.0.0 1.63.0 64 64
index.json#page/1.64.0/1.64.0 1.64.0 1.64.0 1 1
";

fn minors(alloc: Global, end: u32, without: u32) -> Result<Vec<String>, AllocError> {
    let mut texts = Vec::new(alloc);
    for minor in 0..end {
        if minor != without {
            texts.push(metadata(alloc, minor, ".0")?)?;
        }
    }
    Ok(texts)
}

fn text_in<'a>(page: &'a Value, name: &str) -> &'a str {
    page.get(name).and_then(Value::as_str).unwrap_or("")
}

fn page_line(alloc: Global, page: &Value) -> Result<String, AllocError> {
    let url = text_in(page, "@id").replace(alloc, "http://f.test/v3/registration/foo/", "")?;
    let (lower, upper) = (text_in(page, "lower"), text_in(page, "upper"));
    let count = page.get("count").and_then(Value::as_u64).unwrap_or(0);
    let listed = page
        .get("items")
        .and_then(Value::as_array)
        .map_or(0, Vec::len);
    format!(in alloc; "{url} {lower} {upper} {count} {listed}\n")
}

fn index_lines(alloc: Global, index: &Value) -> Result<String, AllocError> {
    let mut told = String::new(alloc);
    let Some(pages) = index.get("items").and_then(Value::as_array) else {
        return Ok(told);
    };
    for page in pages.as_slice() {
        told.push_str(&page_line(alloc, page)?)?;
    }
    Ok(told)
}

fn pages_told(alloc: Global, docs: &[Doc]) -> Result<String, AllocError> {
    let index = Value::from_str(alloc, docs.first().map_or("", text_of)).unwrap_or(Value::Null);
    let mut told = index_lines(alloc, &index)?;
    for doc in docs {
        let name = doc.name.as_str();
        if name.contains("/page/") {
            told.push_str(&format!(in alloc; "{name}\n")?)?;
        }
    }
    Ok(told)
}

#[test]
fn pages_in_the_index_and_stored(rt: HostRuntime) -> Result<(), Fail> {
    let (alloc, mut told) = (rt.alloc(), String::new(rt.alloc()));
    for (end, without) in [(128, 64), (128, 128), (64, 64), (65, 65)] {
        let commits = commits(alloc, &minors(alloc, end, without)?)?;
        let pages = pages_told(alloc, docs::<Plain>(alloc, &commits)?.as_slice())?;
        told.push_str(&format!(in alloc; "{end} without {without}\n{pages}")?)?;
    }
    assert_eq!(rt; told.as_str(), PAGES);
    Ok(())
}

#[test]
fn each_function_answers(rt: HostRuntime) -> Result<(), Fail> {
    let alloc = rt.alloc();
    let commits = commits(alloc, &minors(alloc, 128, 128)?)?;
    let entries = from_scratch::<SemVer2>(alloc, &commits, "foo")?.into_vec();
    let last = entries.last().expect(&rt, "one");
    for hive in [RegistrationHive::Plain, RegistrationHive::SemVer2] {
        let index = reg_index(alloc, BASE, hive, "foo", 2, stamp(2), &entries).is_ok();
        let pages = reg_pages(alloc, BASE, hive, "foo", &entries).is_ok();
        let leaf = reg_leaf(alloc, BASE, hive, "foo", last).is_ok();
        same(
            &rt,
            (index, pages, leaf),
            (true, true, true),
            "what is answered",
        );
    }
    Ok(())
}
