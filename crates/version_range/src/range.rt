// The type of ranges.
ghost use Rattle.std.specs.Prelude.{not, is_some, ◌||◌, IsTrue};
ghost use Rattle.version_range.specs.Order.{are_ordered};

use crate::ends::{copy_end, print_end, print_range};
use crate::error::RangeErr;
use crate::order::{is_above_low, is_below_high};
use crate::reading::read_range;
use nuget_version::{NoMemory, Text, Version};
use std::alloc::Global;

/// A range of versions, by its lower and its upper end. An absent end bounds nothing, and is never
/// included.
#[derive(Drop)]
pub struct VersionRange {
    pub low: Option<Version>,
    /// Whether the lower end is in the range.
    pub low_in: bool,
    pub high: Option<Version>,
    /// Whether the upper end is in the range.
    pub high_in: bool,
    pub ghost low_there: { IsTrue (not low_in || is_some low) },
    pub ghost high_there: { IsTrue (not high_in || is_some high) },
    pub ghost ordered: { IsTrue (are_ordered low low_in high high_in) },
}

impl VersionRange {
    ghost use Rattle.std.specs.Prelude.{◌≡◌, ◌↔◌, IfOk, IfErr};
    ghost use Rattle.version_range.specs.Form.{form};
    ghost use Rattle.version_range.specs.Grammar.{SpellsRange};
    ghost use Rattle.version_range.specs.Holds.{Holds, is_semver2_range};
    ghost use Rattle.version_range.specs.Printed.{range_text};
    ghost use Rattle.version_range.specs.Refusals.{IsRangeRefused};

    /// Reads a range. Spaces may stand at both ends, inside the brackets and around the comma.
    /// Nothing but spaces, and `(,)`, is any version; a version alone is an included lower end;
    /// `[1.0]` is that version alone.
    pub fn parse(alloc: Global, text: &str) -> Result<Self, RangeErr>
        ensures ok { IfOk result (SpellsRange text.now) }
        ensures accepts { (r : VersionRange) → SpellsRange text.now r → IfErr result (λ e. e ≡ RangeErr.Memory) }
        ensures refused { IfErr result (IsRangeRefused text.now) }
    {
        read_range(alloc, text)
    }

    /// Whether the version is in the range.
    pub fn holds(&self, v: &Version) -> bool
        ensures { IsTrue result ↔ Holds self.now v.now }
    {
        is_above_low(&self.low, self.low_in, v) && is_below_high(&self.high, self.high_in, v)
    }

    /// Whether an end has a dot in its labels, or has metadata.
    pub fn is_semver2(&self) -> bool
        ensures { result ≡ is_semver2_range self.now }
    {
        self.low.as_ref().map_or(false, Version::is_semver2)
            || self.high.as_ref().map_or(false, Version::is_semver2)
    }

    /// The canonical text: bracket, full form, comma, space, full form, bracket, as in `[1.0.0, )`.
    /// It reads back as the range.
    #[tactic(auto, unfolding(crate::specs::Printed::range_text))]
    pub fn text(&self, alloc: Global) -> Result<Text, NoMemory>
        ensures { IfOk result (λ t. t ≡ range_text self.now) }
    {
        let low = print_end(alloc, &self.low)?;
        let high = print_end(alloc, &self.high)?;
        let text = print_range(
            alloc,
            self.low_in,
            low.as_str(),
            high.as_str(),
            self.high_in,
        )?;
        Ok(Text::of(text))
    }

    pub fn copy(&self, alloc: Global) -> Result<Self, NoMemory>
        ensures { IfOk result (λ r. r ≡ self.now) }
    {
        let low = copy_end(alloc, &self.low)?;
        let high = copy_end(alloc, &self.high)?;
        Ok(VersionRange {
            low,
            low_in: self.low_in,
            high,
            high_in: self.high_in,
        })
    }
}
