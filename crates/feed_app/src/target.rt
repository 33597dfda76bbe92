// What the path of a `get` asks for.
ghost use Rattle.std.specs.Prelude.{IfOk};
ghost use Rattle.feed_app.specs.Targets.{Names};

use crate::hives::ServedHive;
use feed_routes::{Ask, RouteErr, route};
use fold_core::HiveName;
use pkg_meta::{NoMemory, Text};
use std::alloc::Global;

/// What the path of a `get` asks for.
#[derive(Drop)]
pub(crate) enum Target {
    /// The service index.
    Index,
    /// The catalog's document of this name.
    Catalog(Text),
    /// The document of this name in the hive's area.
    Hive(ServedHive, Text),
    /// What a server alone answers.
    Served,
    /// Nothing that has a route.
    Unknown,
}

/// What the path of a `get` asks for, under whatever method its route has.
pub(crate) fn target_of(alloc: Global, path: &str) -> Result<Target, NoMemory>
    ensures { IfOk result (Names path.now) }
{
    match route(alloc, "GET", path) {
        Ok(Ask::Index) => Ok(Target::Index),
        Ok(Ask::CatalogDoc(name)) => Ok(Target::Catalog(name)),
        Ok(Ask::Registration(hive, name)) => match hive {
            HiveName::Plain => Ok(Target::Hive(ServedHive::Plain, name)),
            HiveName::SemVer2 => Ok(Target::Hive(ServedHive::SemVer2, name)),
            HiveName::Content | HiveName::Auto => unreachable!(),
        },
        Ok(Ask::Flat(name)) => Ok(Target::Hive(ServedHive::Content, name)),
        Ok(Ask::Autocomplete(_) | Ask::Commit(_) | Ask::Job(_) | Ask::Cursor(_) | Ask::Stop) => Ok(
            Target::Served,
        ),
        Err(RouteErr::Method(_)) => Ok(Target::Served),
        Err(RouteErr::NotFound) => Ok(Target::Unknown),
        Err(RouteErr::Memory) => Err(NoMemory),
    }
}
