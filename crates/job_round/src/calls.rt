// The calls of a pass.
ghost use Rattle.std.specs.Prelude.{◌≡◌, ◌∷◌, [], ⊤, true, IfErr, IfOk, IfSome, IsErrOf};
ghost use Rattle.std.specs.FinMap as map;
ghost use Rattle.blob_store.specs.Events.{Change, Get};
ghost use Rattle.blob_store.specs.declared.call.Call.TheVariants.{Put, Remove};
ghost use Rattle.catalog_core.specs.Framing.{StaysOpen};
ghost use Rattle.catalog_doc.specs.Names.{staged_name};
ghost use Rattle.catalog_core.specs.Opened.{IsOpenFor};
ghost use Rattle.fold_core.specs.declared.doc.Body.TheVariants.{Staged as FromPublish};
ghost use Rattle.id_pass.specs.declared.call.Call.TheVariants as planned;
ghost use Rattle.job_round.specs.Made.{RunsCalls};
ghost use Rattle.job_round.specs.Reads.{RunsReads, bodies_of};
ghost use Rattle.job_round.specs.Stops.{IfDamaged, IsOfHive, RunsOne, RunsTo};
ghost use Rattle.job_round.specs.Items.{IsStagedAbsent};

use crate::stop::{Stop, catalog_stop, hive_stop};
use blob_store::Blobs;
use catalog_core::Catalog;
use id_pass::{Body, Call, Plan};
use pkg_meta::Bytes;
use std::alloc::Global;

/// The hive's blob of this name.
pub(crate) fn get<B: Blobs>(alloc: Global, area: &mut B, name: &str) -> Result<Option<Bytes>, Stop>
    ensures runs { RunsTo (Get name.now ∷ []) (B.seen area.old) (B.seen area.new) result }
    ensures found { IfOk result (λ found. IfSome (B.seen area.old).held (λ m. found ≡ map.get m name.now)) }
    ensures same { (B.seen area.new).held ≡ (B.seen area.old).held }
    ensures cause { IfErr result (IsOfHive (λ n. ⊥)) }
{
    match area.get(alloc, name) {
        Ok(found) => Ok(found),
        Err(error) => Err(hive_stop(error)),
    }
}

/// Puts a blob into the hive's area.
pub(crate) fn put<B: Blobs>(
    alloc: Global,
    area: &mut B,
    name: &str,
    bytes: &[u8],
) -> Result<(), Stop>
    ensures runs { RunsOne (Change (Put name.now bytes.now)) (B.seen area.old) (B.seen area.new) result }
    ensures cause { IfErr result (IsOfHive (λ n. ⊥)) }
{
    match area.put(alloc, name, bytes) {
        Ok(()) => Ok(()),
        Err(error) => Err(hive_stop(error)),
    }
}

// Removes a blob from it.
fn remove<B: Blobs>(alloc: Global, area: &mut B, name: &str) -> Result<(), Stop>
    ensures runs { RunsOne (Change (Remove name.now)) (B.seen area.old) (B.seen area.new) result }
    ensures cause { IfErr result (IsOfHive (λ n. ⊥)) }
{
    match area.delete(alloc, name) {
        Ok(()) => Ok(()),
        Err(error) => Err(hive_stop(error)),
    }
}

// Gets what a publish brought, and puts it under a name.
fn put_staged<B: Blobs>(
    alloc: Global,
    catalog: &mut Catalog<B>,
    area: &mut B,
    name: &str,
    number: u32,
    place: u32,
    nuspec: bool,
) -> Result<(), Stop>
    ensures stays { StaysOpen catalog.old catalog.new (B.seen catalog.old.area) (B.seen catalog.new.area) (IsErrOf result Stop.CatalogFault) }
    ensures runs { RunsCalls (IsOpenFor catalog.old (B.seen catalog.old.area)) (planned.Put name.now (FromPublish number place nuspec) ∷ [])
        (B.seen area.old) (B.seen area.new) result }
    ensures reads { catalog.old.settled ≡ true
        → RunsReads (Get (staged_name number place nuspec) ∷ []) (B.seen catalog.old.area) (B.seen catalog.new.area) result }
    ensures cause { catalog.old.settled ≡ true → IfErr result (IfDamaged (IsStagedAbsent (B.seen catalog.new.area).held) (λ n. ⊥)) }
{
    match catalog.staged(alloc, number, place, nuspec) {
        Ok(bytes) => put(alloc, area, name, bytes.as_slice()),
        Err(error) => Err(catalog_stop(error)),
    }
}

// Makes a call of a pass.
fn run_call<B: Blobs>(
    alloc: Global,
    catalog: &mut Catalog<B>,
    area: &mut B,
    call: &Call,
) -> Result<(), Stop>
    ensures stays { StaysOpen catalog.old catalog.new (B.seen catalog.old.area) (B.seen catalog.new.area) (IsErrOf result Stop.CatalogFault) }
    ensures runs { RunsCalls (IsOpenFor catalog.old (B.seen catalog.old.area)) (call.now ∷ []) (B.seen area.old) (B.seen area.new) result }
    ensures reads { catalog.old.settled ≡ true → RunsReads (bodies_of (call.now ∷ [])) (B.seen catalog.old.area) (B.seen catalog.new.area) result }
    ensures cause { catalog.old.settled ≡ true → IfErr result (IfDamaged (IsStagedAbsent (B.seen catalog.new.area).held) (λ n. ⊥)) }
{
    match call {
        Call::Put { name, body } => match body {
            Body::Made(bytes) => put(alloc, area, name.as_str(), bytes.as_slice()),
            Body::Staged {
                number,
                place,
                nuspec,
            } => put_staged(
                alloc,
                catalog,
                area,
                name.as_str(),
                *number,
                *place,
                *nuspec,
            ),
        },
        Call::Remove { name } => remove(alloc, area, name.as_str()),
    }
}

/// Makes the calls of a plan in order.
pub(crate) fn run_plan<B: Blobs>(
    alloc: Global,
    catalog: &mut Catalog<B>,
    area: &mut B,
    plan: Plan,
) -> Result<(), Stop>
    ensures stays { StaysOpen catalog.old catalog.new (B.seen catalog.old.area) (B.seen catalog.new.area) (IsErrOf result Stop.CatalogFault) }
    ensures runs { RunsCalls (IsOpenFor catalog.old (B.seen catalog.old.area)) plan (B.seen area.old) (B.seen area.new) result }
    ensures reads { catalog.old.settled ≡ true → RunsReads (bodies_of plan) (B.seen catalog.old.area) (B.seen catalog.new.area) result }
    ensures cause { catalog.old.settled ≡ true → IfErr result (IfDamaged (IsStagedAbsent (B.seen catalog.new.area).held) (λ n. ⊥)) }
{
    let mut plan = plan;
    while let Some(call) = plan.next_call() {
        run_call(alloc, catalog, area, call)?;
        plan.advance();
    }
    Ok(())
}
