// The hash of a package.
ghost use Rattle.std.specs.Prelude.{◌≡◌, IfOk};
ghost use Rattle.catalog_doc.specs.Hash.{hash_text};

use base64::engine::general_purpose::STANDARD;
use pkg_meta::{NoMemory, Text};
use sha2::{Digest, Sha512};
use std::alloc::Global;

/// The standard base64 of the package's SHA-512.
#[tactic(auto, unfolding(catalog_doc::specs::Hash::hash_text))]
pub fn package_hash(alloc: Global, nupkg: &[u8]) -> Result<Text, NoMemory>
    ensures { IfOk result (λ t. t ≡ hash_text nupkg.now) }
{
    let digest = Sha512::digest(nupkg);
    let text = STANDARD.encode(alloc, &digest)?;
    Ok(Text::of(text))
}
