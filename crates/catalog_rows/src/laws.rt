// What holds of refusals.
ghost use Rattle.std.specs.Prelude.{◌≡◌, List, []};
ghost use Rattle.std.specs.Option.{option_or};
ghost use Rattle.pkg_meta.specs.Catalog.{Catalog};
ghost use Rattle.catalog_doc.specs.Verdict.{already, first_reason, refusal};
ghost use Rattle.catalog_doc.specs.declared.change.Change.{Change};
ghost use Rattle.catalog_rows.specs.Reasons.{misshapen, unready};

/// The verdict's refusal is that of the changes' shape, else that of the rows, else that a version has the
/// listing that is wanted. It does nothing.
pub fn refusals_have_parts()
    ensures { (cs : Catalog) (changes : List Change) → refusal cs changes
        ≡ option_or (misshapen changes) (option_or (unready cs changes) (first_reason (already cs) [] 0 changes)) }
{}
