// The hives, those whose documents are served, and their names.
ghost use Rattle.std.specs.Prelude.{◌≡◌};
ghost use Rattle.feed_app.specs.Hives.{hive_name, hive_by_word};

use fold_core::HiveName;

/// A hive whose documents are served.
#[derive(Clone, Copy, Debug, PartialEq, Eq)]
pub enum ServedHive {
    /// The registrations without SemVer 2.0.0 packages.
    Plain,
    /// The registrations of all packages.
    SemVer2,
    /// The package content.
    Content,
}

/// The name of a hive whose documents are served.
pub(crate) fn hive_name(hive: ServedHive) -> HiveName
    ensures { result ≡ hive_name hive }
{
    match hive {
        ServedHive::Plain => HiveName::Plain,
        ServedHive::SemVer2 => HiveName::SemVer2,
        ServedHive::Content => HiveName::Content,
    }
}

/// The hive with this word.
pub(crate) fn hive_by_word(word: &str) -> Option<HiveName>
    ensures { result ≡ hive_by_word word.now }
{
    match word {
        "plain" => Some(HiveName::Plain),
        "semver2" => Some(HiveName::SemVer2),
        "content" => Some(HiveName::Content),
        "auto" => Some(HiveName::Auto),
        _ => None,
    }
}
