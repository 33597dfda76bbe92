// What a commit says of one version of a package.
ghost use Rattle.std.specs.Prelude.{◌≡◌, true, IfOk};
ghost use Rattle.pkg_meta.specs.Items.{id_of, version_of, is_gone, published};
ghost use Rattle.pkg_meta.specs.SemVer2.{is_semver2_package};

use crate::dependency::has_semver2_bound;
use crate::meta::Meta;
use nuget_version::{NoMemory, Text, Version};
use package_id::PackageId;
use std::alloc::Global;
use ticks::Ticks;

/// A snapshot of a version's metadata, made at each change of it.
#[derive(Drop)]
pub struct Details {
    pub meta: Meta,
    pub listed: bool,
    /// When the version was published.
    pub created: Ticks,
    /// The number of the commit that published it.
    pub origin_number: u32,
    /// The place in that commit, from 0.
    pub origin_place: u32,
    /// The package's length in bytes.
    pub size: u64,
    /// The standard base64 of the package's SHA-512.
    pub hash: Text,
}

/// An item of a commit: the catalog's `PackageDetails` or `PackageDelete`.
#[derive(Drop)]
pub enum Item {
    Details(Details),
    Gone { id: PackageId, version: Version },
}

impl Item {
    pub fn id(&self) -> &PackageId
        ensures { result.now ≡ id_of self.now }
    {
        match self {
            Item::Details(details) => &details.meta.id,
            Item::Gone { id, .. } => id,
        }
    }

    pub fn version(&self) -> &Version
        ensures { result.now ≡ version_of self.now }
    {
        match self {
            Item::Details(details) => &details.meta.version,
            Item::Gone { version, .. } => version,
        }
    }

    /// Whether the item says that the version was deleted.
    pub fn is_gone(&self) -> bool
        ensures { result ≡ is_gone self.now }
    {
        matches!(self, Item::Gone { .. })
    }
}

impl Details {
    /// The listed item that a publish makes at a place of a commit.
    pub fn published(
        meta: Meta,
        number: u32,
        place: u32,
        stamp: Ticks,
        size: u64,
        hash: Text,
    ) -> Self
        ensures { result ≡ published meta number place stamp size hash }
    {
        Details {
            meta,
            listed: true,
            created: stamp,
            origin_number: number,
            origin_place: place,
            size,
            hash,
        }
    }

    pub fn copy(&self, alloc: Global) -> Result<Self, NoMemory>
        ensures { IfOk result (λ d. d ≡ self.now) }
    {
        let hash = self.hash.copy(alloc)?;
        let meta = self.meta.copy(alloc)?;
        Ok(Details {
            meta,
            listed: self.listed,
            created: self.created,
            origin_number: self.origin_number,
            origin_place: self.origin_place,
            size: self.size,
            hash,
        })
    }

    /// Whether the package is a SemVer 2.0.0 one: its version has a dot in its labels or has
    /// metadata, or a bound of a dependency's range does.
    pub fn is_semver2(&self) -> bool
        ensures { result ≡ is_semver2_package self.now }
    {
        self.meta.version.is_semver2() || has_semver2_bound(self.meta.groups.as_slice())
    }
}
