// What requests ask for.
use feed_routes::{Ask, CommitWord, RouteErr, route};
use fold_core::HiveName;
use http_wire::Verb;
use std::alloc::Global;
use std::process::Abort;

// Targets of GET, with what they ask for: the kind, and the name or the query.
const GETS: [(&str, &str, &str); 36] = [
    ("/v3/index.json", "index", ""),
    ("/v3/index.json?a", "index", ""),
    ("/v3/index.json?", "index", ""),
    ("/v3/catalog/index.json", "catalog", "index.json"),
    ("/v3/catalog/page0.json", "catalog", "page0.json"),
    ("/v3/catalog/page10.json?x=1", "catalog", "page10.json"),
    (
        "/v3/catalog/page98765432109876543210.json",
        "catalog",
        "page98765432109876543210.json",
    ),
    ("/v3/catalog/data/1/0.json", "catalog", "data/1/0.json"),
    (
        "/v3/catalog/data/70/63.json?a=/b?c",
        "catalog",
        "data/70/63.json",
    ),
    (
        "/v3/registration/foo/index.json",
        "plain",
        "d/foo/index.json",
    ),
    (
        "/v3/registration/foo/page/1.0.0/1.9.0-b.json",
        "plain",
        "d/foo/page/1.0.0/1.9.0-b.json",
    ),
    (
        "/v3/registration/foo/1.0.0.1.json?a",
        "plain",
        "d/foo/1.0.0.1.json",
    ),
    (
        "/v3/registration/page/index.json",
        "plain",
        "d/page/index.json",
    ),
    (
        "/v3/registration-semver2/foo/index.json",
        "semver2",
        "d/foo/index.json",
    ),
    (
        "/v3/registration-semver2/foo/page/1.0.0/2.0.0.json",
        "semver2",
        "d/foo/page/1.0.0/2.0.0.json",
    ),
    (
        "/v3/registration-semver2/foo/1.0.0-rc.1.json",
        "semver2",
        "d/foo/1.0.0-rc.1.json",
    ),
    (
        "/v3/registration-semver2/index/index.json",
        "semver2",
        "d/index/index.json",
    ),
    ("/v3/flat/foo/index.json", "flat", "d/foo/index.json"),
    (
        "/v3/flat/newtonsoft.json/index.json",
        "flat",
        "d/newtonsoft.json/index.json",
    ),
    (
        "/v3/flat/foo/1.0.0/foo.1.0.0.nupkg",
        "flat",
        "d/foo/1.0.0/foo.1.0.0.nupkg",
    ),
    (
        "/v3/flat/a.b-c/1.0.0-rc.1/a.b-c.nuspec?",
        "flat",
        "d/a.b-c/1.0.0-rc.1/a.b-c.nuspec",
    ),
    (
        "/v3/flat/foo/1.0.0/foo.nuspec",
        "flat",
        "d/foo/1.0.0/foo.nuspec",
    ),
    ("/v3/autocomplete", "autocomplete", ""),
    ("/v3/autocomplete?", "autocomplete", ""),
    ("/v3/autocomplete?q=json", "autocomplete", "q=json"),
    (
        "/v3/autocomplete?id=foo&prerelease=true",
        "autocomplete",
        "id=foo&prerelease=true",
    ),
    ("/v3/autocomplete?a?b", "autocomplete", "a?b"),
    ("/v3/autocomplete??", "autocomplete", "?"),
    ("/admin/cursor/plain", "cursor", "plain"),
    ("/admin/cursor/semver2", "cursor", "semver2"),
    ("/admin/cursor/content", "cursor", "content"),
    ("/admin/cursor/auto", "cursor", "auto"),
    ("/admin/cursor/auto?x", "cursor", "auto"),
    (
        "/v3/registration/1.0.0/1.0.0.json",
        "plain",
        "d/1.0.0/1.0.0.json",
    ),
    (
        "/v3/flat/1/1.0.0/1.1.0.0.nupkg",
        "flat",
        "d/1/1.0.0/1.1.0.0.nupkg",
    ),
    (
        "/v3/flat/nupkg/0.0.0/nupkg.nuspec",
        "flat",
        "d/nupkg/0.0.0/nupkg.nuspec",
    ),
];

// Targets of POST.
const POSTS: [(&str, &str, &str); 10] = [
    ("/admin/publish", "commit", "publish"),
    ("/admin/publish?a", "commit", "publish"),
    ("/admin/unlist", "commit", "unlist"),
    ("/admin/list", "commit", "list"),
    ("/admin/delete", "commit", "delete"),
    ("/admin/job/plain", "job", "plain"),
    ("/admin/job/semver2", "job", "semver2"),
    ("/admin/job/content", "job", "content"),
    ("/admin/job/auto", "job", "auto"),
    ("/admin/stop", "stop", ""),
];

// Methods and targets, each with the one method that the target has.
const METHODS: [(&str, &str, &str); 14] = [
    ("POST", "/v3/index.json", "GET"),
    ("HEAD", "/v3/index.json", "GET"),
    ("get", "/v3/index.json", "GET"),
    ("", "/v3/index.json?a", "GET"),
    ("PUT", "/v3/catalog/page0.json", "GET"),
    ("POST", "/v3/registration/foo/index.json", "GET"),
    ("HEAD", "/v3/flat/foo/1.0.0/foo.1.0.0.nupkg", "GET"),
    ("POST", "/v3/autocomplete?q=a", "GET"),
    ("POST", "/admin/cursor/plain", "GET"),
    ("GET", "/admin/publish", "POST"),
    ("PUT", "/admin/publish", "POST"),
    ("GET", "/admin/list?a", "POST"),
    ("HEAD", "/admin/job/auto", "POST"),
    ("GET", "/admin/stop", "POST"),
];

// Targets that no method has.
const MISSING: [&str; 56] = [
    "",
    "/",
    "*",
    "?/v3/index.json",
    "v3/index.json",
    "http://f.test/v3/index.json",
    "/v3/index.json/",
    "/v3//index.json",
    "/V3/index.json",
    "/v3/index.json%3Fa",
    "/v3/index.json#a",
    "/v3/Index.json",
    "/v3/index.jso",
    "/v3/index.json ",
    "/v3/catalog/",
    "/v3/catalog",
    "/v3/catalog/Index.json",
    "/v3/catalog/page.json",
    "/v3/catalog/page00.json",
    "/v3/catalog/page01.json",
    "/v3/catalog/page+1.json",
    "/v3/catalog/page1.json ",
    "/v3/catalog/page1.jsonx",
    "/v3/catalog/data/1.json",
    "/v3/catalog/data/01/0.json",
    "/v3/catalog/data/1/00.json",
    "/v3/catalog/data/1/0/0.json",
    "/v3/catalog/data//0.json",
    "/v3/catalog/staged/1/0.nupkg",
    "/v3/flat/",
    "/v3/flat/Foo/index.json",
    "/v3/flat/foo/index.html",
    "/v3/flat/index.json",
    "/v3/flat/fo..o/index.json",
    "/v3/flat/foo%2Ebar/index.json",
    "/v3/flat/foo/1.0/foo.1.0.nupkg",
    "/v3/flat/foo/1.0.0-RC/foo.nuspec",
    "/v3/flat/foo/1.0.0+a/foo.nuspec",
    "/v3/flat/foo/1.0.0/bar.nuspec",
    "/v3/flat/foo/1.0.0/foo.1.0.1.nupkg",
    "/v3/flat/foo/1.0.0/foo-1.0.0.nupkg",
    "/v3/flat/foo/1.0.0.json",
    "/v3/registration/foo/page/1.0.0/2.0.json",
    "/v3/registration/foo/page/1.0.0.json",
    "/v3/registration/foo/1.0.0.0.json",
    "/v3/registration/foo/1.0.0",
    "/v3/registration-semver2/Foo/1.0.0.json",
    "/v3/registration-semver1/foo/index.json",
    "/v3/registrations/foo/index.json",
    "/v3/autocomplete/",
    "/admin/cursor/catalog",
    "/admin/cursor/",
    "/admin/job/Plain",
    "/admin/job/plain/",
    "/admin/relist",
    "/admin/Stop",
];

const ALL_METHODS: [&str; 3] = ["GET", "POST", "HEAD"];

fn hive_text(hive: HiveName) -> &'static str {
    match hive {
        HiveName::Plain => "plain",
        HiveName::SemVer2 => "semver2",
        HiveName::Content => "content",
        HiveName::Auto => "auto",
    }
}

fn commit_text(word: CommitWord) -> &'static str {
    match word {
        CommitWord::Publish => "publish",
        CommitWord::Unlist => "unlist",
        CommitWord::Relist => "list",
        CommitWord::Delete => "delete",
    }
}

fn asked(ask: &Ask) -> (&str, &str) {
    match ask {
        Ask::Index => ("index", ""),
        Ask::CatalogDoc(name) => ("catalog", name.as_str()),
        Ask::Registration(hive, name) => (hive_text(*hive), name.as_str()),
        Ask::Flat(name) => ("flat", name.as_str()),
        Ask::Autocomplete(query) => ("autocomplete", query.as_str()),
        Ask::Commit(word) => ("commit", commit_text(*word)),
        Ask::Job(hive) => ("job", hive_text(*hive)),
        Ask::Cursor(hive) => ("cursor", hive_text(*hive)),
        Ask::Stop => ("stop", ""),
    }
}

fn told(found: &Result<Ask, RouteErr>) -> (&str, &str) {
    match found {
        Ok(ask) => asked(ask),
        Err(RouteErr::NotFound) => ("missing", ""),
        Err(RouteErr::Method(Verb::Get)) => ("method", "GET"),
        Err(RouteErr::Method(Verb::Post)) => ("method", "POST"),
        Err(RouteErr::Memory) => ("memory", ""),
    }
}

// Asserts what a request asks for.
fn asks(rt: &impl Abort, alloc: Global, request: (&str, &str), want: (&str, &str)) {
    let (method, target) = request;
    let found = route(alloc, method, target);
    assert_eq!(rt; told(&found), want, "{method} {target}");
}

#[test]
fn routes_of_get(rt: HostRuntime) {
    for (target, kind, name) in &GETS {
        asks(&rt, rt.alloc(), ("GET", *target), (*kind, *name));
        asks(&rt, rt.alloc(), ("POST", *target), ("method", "GET"));
    }
}

#[test]
fn routes_of_post(rt: HostRuntime) {
    for (target, kind, name) in &POSTS {
        asks(&rt, rt.alloc(), ("POST", *target), (*kind, *name));
        asks(&rt, rt.alloc(), ("GET", *target), ("method", "POST"));
    }
}

#[test]
fn routes_of_another_method(rt: HostRuntime) {
    for (method, target, allowed) in &METHODS {
        asks(&rt, rt.alloc(), (*method, *target), ("method", *allowed));
    }
}

#[test]
fn targets_without_a_route(rt: HostRuntime) {
    for target in &MISSING {
        for method in &ALL_METHODS {
            asks(&rt, rt.alloc(), (*method, *target), ("missing", ""));
        }
    }
}
