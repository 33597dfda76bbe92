// The items of an open catalog.
ghost use Rattle.std.specs.Prelude.{◌≡◌, ◌⊎◌, None, Some, true, IfOk, IfSome, IsErrOf, OnOk, map, slice_get, List};
ghost use Rattle.std.specs.List.{Contains};
ghost use Rattle.blob_store.specs.Area.{Area};
ghost use Rattle.pkg_meta.specs.declared.commit.Stored.{Stored};
ghost use Rattle.pkg_meta.specs.declared.item.Item.{Item};
ghost use Rattle.catalog_doc.specs.CatDocs.{all_rows};
ghost use Rattle.catalog_doc.specs.Names.{leaf_name};
ghost use Rattle.catalog_doc.specs.declared.row.Row.{Row};
ghost use Rattle.catalog_opening.specs.Errors.{IfDamagedRead};
ghost use Rattle.catalog_opening.specs.Plans.{RunsReading};
ghost use Rattle.catalog_items.specs.Leaves.{AreCommitsAt, HasNoLeaf, HoldsLeaf, IsNoLeafOf, leaf_gets, row_with};
ghost use Rattle.catalog_items.specs.Reads.{IsRead};
ghost use Rattle.catalog_core.specs.Framing.{StaysOpen};
ghost use Rattle.catalog_core.specs.Opened.{IsOpenFor, IsUnsettled};

use crate::catalog::Catalog;
use blob_store::Blobs;
use catalog_items::{commits_at, leaf_at};
use catalog_opening::ReadErr;
use pkg_meta::{Commit, Item, Many};
use std::alloc::Global;

impl<B: Blobs> Catalog<B> {
    /// The item at a place of a commit, read from its leaf.
    pub fn leaf(&mut self, alloc: Global, number: u32, place: u32) -> Result<Item, ReadErr>
        ensures reads { (cs : List Stored) (c : Stored) (it : Item) → IsOpenFor self.old (B.seen self.old.area) cs → Contains cs c
            → c.commit.number ≡ number → slice_get c.commit.items place ≡ Some it → IsRead it result }
        // Settled, the leaf of the row kept is got once, where there is one, and nothing else is called.
        ensures runs { self.old.settled ≡ true
            → RunsReading (leaf_gets (row_with number place self.old.kept.rows)) (B.seen self.old.area) (B.seen self.new.area) result }
        ensures absent { (cs : List Stored) → IsOpenFor self.old (B.seen self.old.area) cs → row_with number place (all_rows cs) ≡ None
            → IfOk result (λ it. ⊥) }
        ensures stays { StaysOpen self.old self.new (B.seen self.old.area) (B.seen self.new.area) (IsErrOf result ReadErr.Fault) }
        ensures held { (now : Area) → (B.seen self.new.area).held ≡ Some now
            → IfOk result (λ it. IfSome (row_with number place self.new.kept.rows) (λ row. HoldsLeaf now self.new.base row it)) }
        ensures damaged { (m now : Area) → (B.seen self.old.area).held ≡ Some m → (B.seen self.new.area).held ≡ Some now
            → IfDamagedRead result (λ n. IsUnsettled m self.old n
            ⊎ ((n ≡ leaf_name number place) × IfSome (row_with number place self.new.kept.rows) (HasNoLeaf now self.new.base))) }
    {
        self.settle(alloc)?;
        leaf_at(
            alloc,
            &mut self.area,
            self.base.as_str(),
            self.rows.as_slice(),
            number,
            place,
        )
    }

    /// All commits, from the first on, each item read from its leaf.
    pub fn commits(&mut self, alloc: Global) -> Result<Many<Commit>, ReadErr>
        ensures reads { (cs : List Stored) → IsOpenFor self.old (B.seen self.old.area) cs → IsRead (map (λ (c : Stored). c.commit) cs) result }
        ensures stays { StaysOpen self.old self.new (B.seen self.old.area) (B.seen self.new.area) (IsErrOf result ReadErr.Fault) }
        ensures settled { OnOk result (self.new.settled ≡ true) }
        ensures held { (now : Area) → (B.seen self.new.area).held ≡ Some now → IfOk result (AreCommitsAt now self.new.base self.new.kept.rows) }
        ensures damaged { (m now : Area) → (B.seen self.old.area).held ≡ Some m → (B.seen self.new.area).held ≡ Some now
            → IfDamagedRead result (λ n. IsUnsettled m self.old n
            ⊎ ((row : Row) × Contains self.new.kept.rows row × IsNoLeafOf now self.new.base row n)) }
    {
        self.settle(alloc)?;
        commits_at(
            alloc,
            &mut self.area,
            self.base.as_str(),
            self.rows.as_slice(),
        )
    }
}
