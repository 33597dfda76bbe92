// What holds of every hive over every lawful catalog.
ghost use Rattle.std.specs.Prelude.{ℕ, List, take};
ghost use Rattle.pkg_meta.specs.Catalog.{Catalog};
ghost use Rattle.pkg_meta.specs.Lawful.{IsLawful};
ghost use Rattle.fold_core.specs.Folds.{fold_of};
ghost use Rattle.hive_laws.specs.FoldLaws.{FoldLaws};

use fold_core::Hive;

/// The first commits of a lawful catalog are a lawful one. It does nothing.
pub fn fronts_are_lawful()
    ensures { (cs : Catalog) (k : ℕ) → IsLawful cs → IsLawful (take k cs) }
{}

/// The documents of every hive have the laws that all others of this crate take as a premise. It does nothing.
pub fn hives_have_laws<H: Hive>()
    ensures { (base : List ℕ) (cs : Catalog) → IsLawful cs → FoldLaws (fold_of H.keeps H.makes base) cs }
{}
