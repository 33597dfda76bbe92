// What a publisher says of a package.
ghost use Rattle.std.specs.Prelude.{◌≡◌, IfOk};
ghost use Rattle.pkg_meta.specs.Made.{identity_of, meta_of};
ghost use Rattle.pkg_meta.specs.Texts.{addresses_of, prose_of, release_of, texts_of};

use crate::copies::{copy_groups, copy_text_if, copy_texts};
use crate::dependency::DepGroup;
use nuget_version::{Many, NoMemory, Text, Version};
use package_id::PackageId;
use std::alloc::Global;

/// The metadata of a package, as its publisher gave it.
pub struct Meta {
    pub id: PackageId,
    pub version: Version,
    /// The version's text as it was given.
    pub verbatim: Text,
    pub authors: Option<Text>,
    pub description: Option<Text>,
    pub icon_url: Option<Text>,
    pub license_url: Option<Text>,
    /// The oldest NuGet client that can install the package.
    pub min_client: Option<Text>,
    pub project_url: Option<Text>,
    pub release_notes: Option<Text>,
    pub summary: Option<Text>,
    pub title: Option<Text>,
    /// Whether a client has to ask for assent to the license.
    pub require_license: Option<bool>,
    pub tags: Many<Text>,
    pub groups: Many<DepGroup>,
}

// One call drops all parts, wherever metadata end.
impl Drop for Meta {
    fn drop(self) {
        let Meta {
            id,
            version,
            verbatim,
            authors,
            description,
            icon_url,
            license_url,
            min_client,
            project_url,
            release_notes,
            summary,
            title,
            require_license,
            tags,
            groups,
        } = self;
    }
}

/// The id and the version of a package.
#[derive(Drop)]
pub struct Identity {
    pub id: PackageId,
    pub version: Version,
    /// The version's text as it was given.
    pub verbatim: Text,
}

/// Where a package's icon, license and project are.
#[derive(Drop)]
pub struct Addresses {
    pub icon_url: Option<Text>,
    pub license_url: Option<Text>,
    pub project_url: Option<Text>,
}

/// Who made a package, and what it is.
#[derive(Drop)]
pub struct Prose {
    pub authors: Option<Text>,
    pub description: Option<Text>,
    pub summary: Option<Text>,
    pub title: Option<Text>,
}

/// What concerns one version of a package.
#[derive(Drop)]
pub struct Release {
    /// The oldest NuGet client that can install the package.
    pub min_client: Option<Text>,
    pub release_notes: Option<Text>,
}

/// The texts that metadata may leave out.
#[derive(Drop)]
pub struct Texts {
    pub addresses: Addresses,
    pub prose: Prose,
    pub release: Release,
}

impl Meta {
    /// The metadata of these parts.
    pub fn made_of(
        identity: Identity,
        texts: Texts,
        require_license: Option<bool>,
        tags: Many<Text>,
        groups: Many<DepGroup>,
    ) -> Self
        ensures { result ≡ meta_of identity texts require_license tags groups }
    {
        let Texts {
            addresses,
            prose,
            release,
        } = texts;
        Meta {
            id: identity.id,
            version: identity.version,
            verbatim: identity.verbatim,
            authors: prose.authors,
            description: prose.description,
            icon_url: addresses.icon_url,
            license_url: addresses.license_url,
            min_client: release.min_client,
            project_url: addresses.project_url,
            release_notes: release.release_notes,
            summary: prose.summary,
            title: prose.title,
            require_license,
            tags,
            groups,
        }
    }

    pub fn copy(&self, alloc: Global) -> Result<Self, NoMemory>
        ensures { IfOk result (λ m. m ≡ self.now) }
    {
        let tags = copy_texts(alloc, &self.tags)?;
        let groups = copy_groups(alloc, &self.groups)?;
        let identity = self.copy_identity(alloc)?;
        let texts = self.copy_texts(alloc)?;
        Ok(Meta::made_of(identity, texts, self.require_license, tags, groups))
    }

    fn copy_identity(&self, alloc: Global) -> Result<Identity, NoMemory>
        ensures { IfOk result (λ i. i ≡ identity_of self.now) }
    {
        let verbatim = self.verbatim.copy(alloc)?;
        let id = self.id.copy(alloc)?;
        let version = self.version.copy(alloc)?;
        Ok(Identity {
            id,
            version,
            verbatim,
        })
    }

    fn copy_texts(&self, alloc: Global) -> Result<Texts, NoMemory>
        ensures { IfOk result (λ t. t ≡ texts_of self.now) }
    {
        let addresses = self.copy_addresses(alloc)?;
        let prose = self.copy_prose(alloc)?;
        let release = self.copy_release(alloc)?;
        Ok(Texts {
            addresses,
            prose,
            release,
        })
    }

    fn copy_addresses(&self, alloc: Global) -> Result<Addresses, NoMemory>
        ensures { IfOk result (λ t. t ≡ addresses_of self.now) }
    {
        Ok(Addresses {
            icon_url: copy_text_if(alloc, &self.icon_url)?,
            license_url: copy_text_if(alloc, &self.license_url)?,
            project_url: copy_text_if(alloc, &self.project_url)?,
        })
    }

    fn copy_prose(&self, alloc: Global) -> Result<Prose, NoMemory>
        ensures { IfOk result (λ t. t ≡ prose_of self.now) }
    {
        Ok(Prose {
            authors: copy_text_if(alloc, &self.authors)?,
            description: copy_text_if(alloc, &self.description)?,
            summary: copy_text_if(alloc, &self.summary)?,
            title: copy_text_if(alloc, &self.title)?,
        })
    }

    fn copy_release(&self, alloc: Global) -> Result<Release, NoMemory>
        ensures { IfOk result (λ t. t ≡ release_of self.now) }
    {
        Ok(Release {
            min_client: copy_text_if(alloc, &self.min_client)?,
            release_notes: copy_text_if(alloc, &self.release_notes)?,
        })
    }
}
