// What the blobs of an area tell.
ghost use Rattle.std.specs.Prelude.{◌≡◌, ℕ, List};
ghost use Rattle.blob_store.specs.Area.{Area};
ghost use Rattle.pkg_meta.specs.Catalog.{Catalog};
ghost use Rattle.pkg_meta.specs.declared.item.Item.{Item};
ghost use Rattle.catalog_doc.specs.Catalogs.{IsCatalog};
ghost use Rattle.catalog_doc.specs.Documents.{leaf_text};
ghost use Rattle.catalog_doc.specs.Reading.{IsItemValue};
ghost use Rattle.catalog_doc.specs.Spelled.{SpellsCatalog, SpellsOnly};

/// Different items have different leaves. It does nothing.
pub fn leaves_tell_items()
    ensures { (base : List ℕ) (number place stamp : ℕ) (it other : Item) → IsItemValue it → IsItemValue other
        → leaf_text base number place stamp it ≡ leaf_text base number place stamp other → it ≡ other }
{}

/// An area spells one catalog at the most, below one base address. It does nothing.
pub fn areas_spell_one()
    ensures { (m : Area) (base : List ℕ) (cs : Catalog) → IsCatalog cs → SpellsCatalog m base cs → SpellsOnly m base cs }
{}
