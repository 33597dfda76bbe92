// The registration hives.
ghost use Rattle.std.specs.Prelude.{refl};
ghost use Rattle.reg_docs.specs.Documents.{registration_docs};
ghost use Rattle.reg_docs.specs.Entries.{keeps_every, keeps_plain};
ghost use Rattle.reg_docs.specs.Laws.{registration_docs_distinct, registration_docs_indexed, registration_docs_owned, registration_docs_staged};
ghost use Rattle.reg_docs.specs.declared.addresses.RegistrationHive.TheVariants as the;

use crate::addresses::RegistrationHive;
use crate::docs::registration_docs;
use fold_core::{Details, Doc, Entry, Hive, HiveName, Many, NoMemory, Ticks};
use std::alloc::Global;

/// The registration hive for clients without SemVer 2.0.0. It keeps what is no SemVer 2.0.0 package,
/// the unlisted too.
pub struct Plain;

/// The registration hive of all packages, the unlisted too.
pub struct SemVer2;

impl Hive for Plain {
    const NAME: HiveName = HiveName::Plain;

    ghost keeps = { keeps_plain };

    ghost makes = { registration_docs the.Plain };

    fn keep(details: &Details) -> bool {
        !details.is_semver2()
    }

    fn docs(
        alloc: Global,
        base: &str,
        key: &str,
        touched: u32,
        touched_stamp: Ticks,
        entries: &[Entry],
    ) -> Result<Many<Doc>, NoMemory> {
        let hive = RegistrationHive::Plain;
        registration_docs(alloc, hive, base, key, touched, touched_stamp, entries)
    }

    ghost empty = { λ base key number stamp. refl };

    ghost owned = { registration_docs_owned the.Plain };

    ghost distinct = { λ base key number stamp es whole rising. registration_docs_distinct the.Plain base key number stamp es rising };

    ghost indexed = { registration_docs_indexed the.Plain };

    ghost staged = { registration_docs_staged the.Plain };
}

impl Hive for SemVer2 {
    const NAME: HiveName = HiveName::SemVer2;

    ghost keeps = { keeps_every };

    ghost makes = { registration_docs the.SemVer2 };

    fn keep(_details: &Details) -> bool {
        true
    }

    fn docs(
        alloc: Global,
        base: &str,
        key: &str,
        touched: u32,
        touched_stamp: Ticks,
        entries: &[Entry],
    ) -> Result<Many<Doc>, NoMemory> {
        let hive = RegistrationHive::SemVer2;
        registration_docs(alloc, hive, base, key, touched, touched_stamp, entries)
    }

    ghost empty = { λ base key number stamp. refl };

    ghost owned = { registration_docs_owned the.SemVer2 };

    ghost distinct = { λ base key number stamp es whole rising. registration_docs_distinct the.SemVer2 base key number stamp es rising };

    ghost indexed = { registration_docs_indexed the.SemVer2 };

    ghost staged = { registration_docs_staged the.SemVer2 };
}
