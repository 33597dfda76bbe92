// What a package depends on.
ghost use Rattle.std.specs.Prelude.{◌≡◌, IfOk};
ghost use Rattle.std.specs.List.{list_any};
ghost use Rattle.version_range.specs.Holds as range;
ghost use Rattle.pkg_meta.specs.SemVer2.{has_semver2_bound};

use crate::copies::{copy_deps, copy_text_if};
use nuget_version::{Many, NoMemory, Text};
use package_id::PackageId;
use std::alloc::Global;
use version_range::VersionRange;

/// A package that another one needs, in one of the versions of a range.
#[derive(Drop)]
pub struct Dep {
    pub id: PackageId,
    pub range: VersionRange,
}

/// The dependencies under one target framework, or under every one that no other group names.
#[derive(Drop)]
pub struct DepGroup {
    pub framework: Option<Text>,
    pub deps: Many<Dep>,
}

impl Dep {
    pub fn copy(&self, alloc: Global) -> Result<Self, NoMemory>
        ensures { IfOk result (λ d. d ≡ self.now) }
    {
        let id = self.id.copy(alloc)?;
        let range = self.range.copy(alloc)?;
        Ok(Dep { id, range })
    }
}

impl DepGroup {
    pub fn copy(&self, alloc: Global) -> Result<Self, NoMemory>
        ensures { IfOk result (λ g. g ≡ self.now) }
    {
        let framework = copy_text_if(alloc, &self.framework)?;
        let deps = copy_deps(alloc, &self.deps)?;
        Ok(DepGroup { framework, deps })
    }

    // Whether a bound of a dependency's range is a SemVer 2.0.0 version.
    fn has_semver2_bound(&self) -> bool
        ensures { result ≡ has_semver2_bound self.now }
    {
        self.deps
            .as_slice()
            .iter()
            .any(|dep| dep.range.is_semver2())
    }
}

// Whether one of the groups has a dependency on a SemVer 2.0.0 version.
pub(crate) fn has_semver2_bound(groups: &[DepGroup]) -> bool
    ensures { result ≡ list_any has_semver2_bound groups.now }
{
    groups.iter().any(|group| group.has_semver2_bound())
}
