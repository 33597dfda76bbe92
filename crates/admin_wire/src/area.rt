// The words for the areas.
ghost use Rattle.std.specs.Prelude.{◌≡◌};
ghost use Rattle.admin_wire.specs.Lines.{area_text, hive_text};

use fold_core::HiveName;

/// An area of the feed.
#[derive(Clone, Copy, Debug, PartialEq, Eq)]
pub enum AreaName {
    Catalog,
    Hive(HiveName),
}

/// The word for a hive in commands and reply lines.
pub fn hive_word(hive: HiveName) -> &'static str
    ensures { result.now ≡ hive_text hive }
{
    match hive {
        HiveName::Plain => "plain",
        HiveName::SemVer2 => "semver2",
        HiveName::Content => "content",
        HiveName::Auto => "auto",
    }
}

/// The word for an area in reply lines.
pub fn area_word(area: AreaName) -> &'static str
    ensures { result.now ≡ area_text area }
{
    match area {
        AreaName::Catalog => "catalog",
        AreaName::Hive(hive) => hive_word(hive),
    }
}
