// The segments that stand for hives.
ghost use Rattle.std.specs.Prelude.{◌≡◌, MatchOption};
ghost use Rattle.fold_core.specs.declared.hive.HiveName.{HiveName};
ghost use Rattle.feed_routes.specs.Table.{hive_segment};

use fold_core::HiveName;

/// The hive that the segment of a path stands for.
pub fn hive_named(segment: &str) -> Option<HiveName>
    ensures { MatchOption result ((hive : HiveName) → segment.now ≡ hive_segment hive → ⊥) (λ hive. segment.now ≡ hive_segment hive) }
{
    match segment {
        "plain" => Some(HiveName::Plain),
        "semver2" => Some(HiveName::SemVer2),
        "content" => Some(HiveName::Content),
        "auto" => Some(HiveName::Auto),
        _ => None,
    }
}
