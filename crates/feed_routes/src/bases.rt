// Base addresses.
ghost use Rattle.std.specs.Prelude.{◌≡◌, ◌↔◌, ◌⊎◌, codes, IfOk, IsTrue, None};
ghost use Rattle.url.specs.Parts.{Parts};
ghost use Rattle.feed_routes.specs.Bases.{IsBaseAddress, IsWebUrl, is_base_address};

use nuget_version::NoMemory;
use std::alloc::Global;
use url::{ParseError, Url};

// How many bytes a base address has at the most.
const MOST_BYTES: usize = 200;

fn is_web(url: &Url) -> bool
    ensures { IsTrue result ↔ ((url.now.scheme ≡ codes "http") ⊎ (url.now.scheme ≡ codes "https")) }
{
    url.scheme() == "http" || url.scheme() == "https"
}

// Whether the text is a URL of the web in its own spelling, without a query and a fragment.
fn is_bare(alloc: Global, text: &str) -> Result<bool, NoMemory>
    ensures { IfOk result (λ is. IsTrue is ↔ ((url : Parts) × IsWebUrl text.now url × (url.query ≡ None) × (url.fragment ≡ None))) }
{
    match Url::parse(alloc, text) {
        Ok(url) => Ok(
            url.as_str() == text
                && is_web(&url)
                && url.query().is_none()
                && url.fragment().is_none(),
        ),
        Err(ParseError::OutOfMemory | ParseError::Overflow) => Err(NoMemory),
        Err(_) => Ok(false),
    }
}

fn is_address(alloc: Global, base: &str) -> Result<bool, NoMemory>
    ensures { IfOk result (λ is. IsTrue is ↔ IsBaseAddress base.now) }
{
    if base.len() > MOST_BYTES || !base.ends_with("/") {
        return Ok(false);
    }
    is_bare(alloc, base)
}

/// Whether the text can be a feed's base address: a URL of `http` or `https` of at most 200 bytes, as the URL Standard
/// writes it, that ends with `/` and has no query and no fragment. That a part of it is too long for `url` is told as want
/// of memory.
pub fn base_ok(alloc: Global, base: &str) -> Result<bool, NoMemory>
    ensures address { IfOk result (λ is. IsTrue is ↔ IsBaseAddress base.now) }
    ensures test { IfOk result (λ is. is ≡ is_base_address base.now) }
{
    is_address(alloc, base)
}
