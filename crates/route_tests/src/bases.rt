// Base addresses.
use crate::same::same;
use feed_routes::base_ok;
use std::test::Fail;

const BASES: [&str; 10] = [
    "http://f.test/",
    "https://f.test/",
    "http://localhost:8080/",
    "http://127.0.0.1/",
    "http://[::1]:8080/",
    "http://a:b@f.test/",
    "http://f.test/feed/",
    "http://f.test/a%20b/",
    "http://f.test/a//",
    // 200 bytes
    "http://f.test/aaaaaaaaaaaaaaaaaaaaaaaaaaaaaaaaaaaaaaaaaaaaaaaaaaaaaaaaaaaaaaaaaaaaaaaaaaaaaaaaaaaaaaaaaaaaaaaaaaaaaaaaaaaaaaaaaaaaaaaaaaaaaaaaaaaaaaaaaaaaaaaaaaaaaaaaaaaaaaaaaaaaaaaaaaaaaaaaaaaaaaaaa/",
];

const OTHERS: [&str; 24] = [
    "",
    "/",
    "f.test/",
    "//f.test/",
    "http:/",
    "http://",
    "http:///",
    "http:f.test/",
    "http://f.test",
    "http://F.test/",
    "HTTP://f.test/",
    "http://f.test:80/",
    "https://f.test:443/",
    "http://f.test/?a",
    "http://f.test/?",
    "http://f.test/?a/",
    "http://f.test/#a/",
    "http://f.test/a",
    "http://f.test/a b/",
    "http://f.test/a/../",
    "ftp://f.test/",
    "file:///f/",
    " http://f.test/",
    // 201 bytes
    "http://f.test/aaaaaaaaaaaaaaaaaaaaaaaaaaaaaaaaaaaaaaaaaaaaaaaaaaaaaaaaaaaaaaaaaaaaaaaaaaaaaaaaaaaaaaaaaaaaaaaaaaaaaaaaaaaaaaaaaaaaaaaaaaaaaaaaaaaaaaaaaaaaaaaaaaaaaaaaaaaaaaaaaaaaaaaaaaaaaaaaaaaaaaaaaa/",
];

#[test]
fn reads_bases(rt: HostRuntime) -> Result<(), Fail> {
    for base in &BASES {
        same(&rt, base_ok(rt.alloc(), *base)?, true, *base);
    }
    for base in &OTHERS {
        same(&rt, base_ok(rt.alloc(), *base)?, false, *base);
    }
    Ok(())
}
