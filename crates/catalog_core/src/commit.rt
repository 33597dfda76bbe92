// The commits of an open catalog.
ghost use Rattle.std.specs.Prelude.{◌≡◌, ◌<◌, ◌≤◌, ◌⊎◌, [], ◌∷◌, ◌++◌, None, Some, IfOk, IsErrOf, OnOk, true, length, map, List};
ghost use Rattle.feed_base.specs.Counts.{CountsFault};
ghost use Rattle.blob_store.specs.Area.{Area};
ghost use Rattle.blob_store.specs.Events.{Change as change_act};
ghost use Rattle.blob_store.specs.Moments.{LeavesOnly};
ghost use Rattle.pkg_meta.specs.declared.commit.Stored.{Stored};
ghost use Rattle.catalog_doc.specs.Catalogs.{IsCatalog};
ghost use Rattle.catalog_doc.specs.Spelled.{SpellsCatalog};
ghost use Rattle.catalog_rows.specs.Reasons.{misshapen};
ghost use Rattle.commit_plan.specs.Lookups.{IfDamagedCommit, IsLastDamaged};
ghost use Rattle.commit_plan.specs.Planned.{IsPlanOf};
ghost use Rattle.catalog_core.specs.Committing.{Commits, MayBeCommitted, PutsCommit, RunsCommit, RunsOnto, RunsPuts, SettlesIf, SettlesUnless, WithOrWithout, with_made};
ghost use Rattle.catalog_core.specs.Opened.{IsOpenFor, IsReady, IsUnsettled};

use crate::catalog::Catalog;
use crate::values::{see_changes, see_moment};
use blob_store::{Blobs, call_all};
use catalog_doc::{Change, Changes, CommitErr, Committed};
use catalog_rows::shape_refusal;
use commit_plan::{CommitPlan, commit_err_for, plan_changes};
use pkg_meta::Ticks;
use std::alloc::Global;

impl<B: Blobs> Catalog<B> {
    // Makes the puts of a commit, once there is memory for its rows; behind the puts none is taken. Until they are all
    // done and the rows are taken in, the catalog isn't settled.
    fn put(&mut self, alloc: Global, plan: CommitPlan) -> Result<Committed, CommitErr>
        requires some { 0 < length plan.rows }
        requires few { length plan.rows ≤ 64 }
        ensures told { IfOk result (λ done. (done.number ≡ plan.number) × (done.stamp ≡ plan.stamp)) }
        ensures runs { RunsPuts (map change_act plan.calls) (B.seen self.old.area) (B.seen self.new.area) result }
        ensures puts { (cs : List Stored) (c : Stored) → IsCatalog (cs ++ c ∷ []) → IsReady self.old (B.seen self.old.area) cs
            → IsPlanOf self.old.base cs c plan → PutsCommit cs c result (IsOpenFor self.new (B.seen self.new.area)) }
        ensures moments { (cs : List Stored) (c : Stored) → IsCatalog (cs ++ c ∷ []) → IsReady self.old (B.seen self.old.area) cs
            → IsPlanOf self.old.base cs c plan → LeavesOnly (B.seen self.old.area) (B.seen self.new.area)
            (λ left. SpellsCatalog left self.old.base cs ⊎ SpellsCatalog left self.old.base (cs ++ c ∷ [])) }
        ensures settled { OnOk result (self.new.settled ≡ true) }
        ensures base { self.new.base ≡ self.old.base }
    {
        self.rows.reserve(alloc, plan.rows)?;
        self.settled = false;
        call_all(alloc, &mut self.area, plan.calls.as_slice())?;
        self.rows.take_in();
        self.settled = true;
        Ok(Committed {
            number: plan.number,
            stamp: plan.stamp,
        })
    }

    // Commits changes onto the catalog, which is settled.
    fn commit_settled(
        &mut self,
        alloc: Global,
        changes: &[Change],
        now: Ticks,
    ) -> Result<Committed, CommitErr>
        requires some { 0 < length changes.now }
        requires few { length changes.now ≤ 64 }
        requires shaped { misshapen changes.now ≡ None }
        ensures commits { (cs : List Stored) → IsReady self.old (B.seen self.old.area) cs
            → Commits cs changes.now now result (IsOpenFor self.new (B.seen self.new.area)) }
        ensures runs { (cs : List Stored) → IsReady self.old (B.seen self.old.area) cs
            → RunsCommit [] self.old.base cs changes.now now (B.seen self.old.area) (B.seen self.new.area) result }
        ensures moments { (cs : List Stored) → IsReady self.old (B.seen self.old.area) cs
            → LeavesOnly (B.seen self.old.area) (B.seen self.new.area) (λ left. WithOrWithout cs changes.now now (SpellsCatalog left self.old.base)) }
        ensures counted { CountsFault (B.seen self.old.area).faults (B.seen self.new.area).faults (IsErrOf result CommitErr.Fault) }
        ensures damaged { (now : Area) → (B.seen self.new.area).held ≡ Some now
            → IfDamagedCommit result (IsLastDamaged now self.new.base self.new.kept.rows) }
        ensures settled { self.old.settled ≡ true → SettlesIf self.new.settled result }
        ensures base { self.new.base ≡ self.old.base }
    {
        see_changes(changes);
        see_moment(now);
        let plan = plan_changes(
            alloc,
            &mut self.area,
            self.base.as_str(),
            &self.rows,
            changes,
            now,
        )?;
        self.put(alloc, plan)
    }

    /// Commits changes of all four kinds, 1 to 64 of them, by the verdict.
    pub fn commit(
        &mut self,
        alloc: Global,
        changes: &Changes,
        now: Ticks,
    ) -> Result<Committed, CommitErr>
        // Committed exactly where the verdict takes the changes, and refused by it, faults and want of memory excepted.
        ensures commits { (cs : List Stored) → IsOpenFor self.old (B.seen self.old.area) cs
            → Commits cs changes.now now result (IsOpenFor self.new (B.seen self.new.area)) }

        // Once it is settled, the leaves that the changes need are got, and then the commit is put: the packages, the
        // manifests and the leaves by their places, the page, the index.
        ensures runs { (cs : List Stored) → IsOpenFor self.old (B.seen self.old.area) cs
            → RunsOnto self.old cs changes.now now (B.seen self.old.area) (B.seen self.new.area) result }

        // A crash at each moment leaves an area that spells the catalog with the commit or without it.
        ensures moments { (cs : List Stored) → IsOpenFor self.old (B.seen self.old.area) cs
            → LeavesOnly (B.seen self.old.area) (B.seen self.new.area) (λ left. WithOrWithout cs changes.now now (SpellsCatalog left self.old.base)) }

        // What the verdict takes makes a catalog, also where a crash leaves it.
        ensures lawful { (cs : List Stored) → IsCatalog cs → MayBeCommitted cs changes.now now → IsCatalog (with_made cs changes.now now) }

        // Of every area.
        ensures counted { CountsFault (B.seen self.old.area).faults (B.seen self.new.area).faults (IsErrOf result CommitErr.Fault) }
        ensures damaged { (m now : Area) → (B.seen self.old.area).held ≡ Some m → (B.seen self.new.area).held ≡ Some now
            → IfDamagedCommit result (λ name. IsUnsettled m self.old name ⊎ IsLastDamaged now self.new.base self.new.kept.rows name) }
        ensures settled { SettlesUnless (misshapen changes.now) self.old.settled self.new.settled result }
        ensures base { self.new.base ≡ self.old.base }
    {
        let list = changes.as_slice();
        see_changes(list);
        see_moment(now);
        if let Some(error) = shape_refusal(list) {
            return Err(error);
        }
        match self.settle(alloc) {
            Ok(()) => self.commit_settled(alloc, list, now),
            Err(error) => Err(commit_err_for(error)),
        }
    }
}
