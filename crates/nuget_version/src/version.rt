// A version, and its printed forms.
ghost use Rattle.std.specs.Prelude.{◌≡◌, ◌≤◌, IsTrue, length};
ghost use Rattle.nuget_version.specs.Parts.{full_of, is_dotted};

use crate::parse::{marked_len, numbers_len};
use crate::texts::{has_dot, push_marked, push_numbers};
use crate::values::{NoMemory, Text};
use std::alloc::{AllocError, Global};

/// A version of a package: SemVer 2.0.0 with NuGet's fourth number. Its texts are those that were
/// given; `labels` and `meta` are empty where the version has none.
#[derive(Drop)]
pub struct Version {
    pub major: u32,
    pub minor: u32,
    pub patch: u32,
    /// NuGet's fourth number, 0 where it wasn't given.
    pub revision: u32,
    /// The pre-release labels, without their `-`.
    pub labels: Text,
    /// The build metadata, without its `+`.
    pub meta: Text,
    pub ghost major_fits: { major ≤ 2147483647 },
    pub ghost minor_fits: { minor ≤ 2147483647 },
    pub ghost patch_fits: { patch ≤ 2147483647 },
    pub ghost revision_fits: { revision ≤ 2147483647 },
    pub ghost labels_dotted: { IsTrue (is_dotted labels) },
    pub ghost meta_dotted: { IsTrue (is_dotted meta) },
    pub ghost short: { length (full_of major minor patch revision labels meta) ≤ 64 },
}

impl Version {
    ghost use Rattle.std.specs.Prelude.{◌≡◌, IfOk, string_bytes};
    ghost use Rattle.nuget_version.specs.Marks.{is_pre, is_semver2};
    ghost use Rattle.nuget_version.specs.Printed.{full_text, key_text, normal_text};

    /// The normal form: `1.0.0-RC.1`, or `1.0.0.1` where the fourth number isn't 0. Metadata is
    /// left out.
    #[tactic(auto, unfolding(crate::specs::Printed::normal_text))]
    pub fn normal(&self, alloc: Global) -> Result<Text, NoMemory>
        ensures { IfOk result (λ t. t ≡ normal_text self.now) }
    {
        Ok(Text::of(self.normal_string(alloc, 0)?))
    }

    /// The normal form, and the metadata behind `+`.
    #[tactic(auto, unfolding(crate::specs::Printed::normal_text, crate::specs::Printed::full_text, crate::specs::Parts::full_of))]
    pub fn full(&self, alloc: Global) -> Result<Text, NoMemory>
        ensures { IfOk result (λ t. t ≡ full_text self.now) }
    {
        let mut text = self.normal_string(alloc, marked_len(self.meta.as_str()))?;
        push_marked(&mut text, '+', self.meta.as_str())?;
        Ok(Text::of(text))
    }

    /// The normal form in ASCII lower case. Two versions are the same one of a package exactly
    /// where their keys are equal.
    #[tactic(auto, unfolding(crate::specs::Printed::key_text))]
    pub fn key(&self, alloc: Global) -> Result<Text, NoMemory>
        ensures { IfOk result (λ t. t ≡ key_text self.now) }
    {
        let mut text = self.normal_string(alloc, 0)?;
        text.make_ascii_lowercase();
        Ok(Text::of(text))
    }

    pub fn copy(&self, alloc: Global) -> Result<Version, NoMemory>
        ensures { IfOk result (λ v. v ≡ self.now) }
    {
        let labels = self.labels.copy(alloc)?;
        let meta = self.meta.copy(alloc)?;
        Ok(Version {
            major: self.major,
            minor: self.minor,
            patch: self.patch,
            revision: self.revision,
            labels,
            meta,
        })
    }

    /// Whether it is a pre-release, which is a version with labels.
    pub fn is_pre(&self) -> bool
        ensures { result ≡ is_pre self.now }
    {
        !self.labels.as_bytes().is_empty()
    }

    /// Whether it is a SemVer 2.0.0 version: one with a dot in its labels, or with metadata.
    pub fn is_semver2(&self) -> bool
        ensures { result ≡ is_semver2 self.now }
    {
        has_dot(self.labels.as_bytes()) || !self.meta.as_bytes().is_empty()
    }

    // The normal form, with room for as many further bytes.
    #[tactic(auto, unfolding(crate::specs::Printed::normal_text))]
    fn normal_string(&self, alloc: Global, further: usize) -> Result<String, AllocError>
        requires { further ≤ 65 }
        ensures { IfOk result (λ s. string_bytes s ≡ normal_text self.now) }
    {
        let numbers = numbers_len(self.major, self.minor, self.patch, self.revision);
        let room = numbers + marked_len(self.labels.as_str()) + further;
        let mut text = String::with_capacity(alloc, room)?;
        push_numbers(&mut text, self.major, self.minor, self.patch, self.revision)?;
        push_marked(&mut text, '-', self.labels.as_str())?;
        Ok(text)
    }
}
