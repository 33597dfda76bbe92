// The job of a hive, and the number of its cursor.
ghost use Rattle.std.specs.Prelude.{◌≡◌, ◌<◌, ◌∷◌, [], ℕ, List, length, codes, true, IfErr, IfOk, IfSome, IsErrOf};
ghost use Rattle.std.specs.FinMap.{get};
ghost use Rattle.feed_base.specs.Counts.{CountsFault};
ghost use Rattle.blob_store.specs.Events.{Get};
ghost use Rattle.blob_store.specs.Plans.{Makes};
ghost use Rattle.pkg_meta.specs.declared.commit.Stored.{Stored};
ghost use Rattle.catalog_core.specs.Framing.{StaysOpen};
ghost use Rattle.catalog_core.specs.Opened.{IsOpenFor};
ghost use Rattle.cursor_doc.specs.Cursor.{cursor_name};
ghost use Rattle.fold_core.specs.Folds.{fold_of};
ghost use Rattle.job_round.specs.Answers.{IfDamagedText, IfDone, IfIdle, IsDamagedBlob, IsNoNumber, IsStopTold, TellsDamaged, hive_word, in_area, told_number};
ghost use Rattle.job_round.specs.Cursors.{IsCursor};
ghost use Rattle.job_round.specs.Reads.{RoundReads};
ghost use Rattle.job_round.specs.Rounds.{EndsTo, Rounds};

use crate::cursor::cursor_in;
use crate::round::round;
use crate::stop::Stop;
use blob_store::Blobs;
use catalog_core::Catalog;
use id_pass::{Hive, HiveName, RoundErr, RoundOut};
use pkg_meta::Text;
use std::alloc::Global;

// The word for a hive's area.
fn hive_word(hive: HiveName) -> &'static str
    ensures { result.now ≡ hive_word hive }
{
    match hive {
        HiveName::Plain => "plain",
        HiveName::SemVer2 => "semver2",
        HiveName::Content => "content",
        HiveName::Auto => "auto",
    }
}

// Tells a blob of an area as damaged.
fn damaged(alloc: Global, area: &str, name: &Text) -> RoundErr
    ensures { TellsDamaged (in_area area.now name.now) result }
{
    let name = name.as_str();
    match format!(in alloc; "{area}/{name}") {
        Ok(text) => RoundErr::Damaged(Text::of(text)),
        Err(_) => RoundErr::Memory,
    }
}

// Tells why a round of the hive stopped.
fn round_err(alloc: Global, hive: HiveName, stop: Stop) -> RoundErr
    ensures { IsStopTold hive stop result }
{
    match stop {
        Stop::CatalogFault => RoundErr::CatalogFault,
        Stop::HiveFault => RoundErr::HiveFault,
        Stop::CatalogDamaged(name) => damaged(alloc, "catalog", &name),
        Stop::HiveDamaged(name) => damaged(alloc, hive_word(hive), &name),
        Stop::Memory => RoundErr::Memory,
    }
}

/// The number of the last commit that the hive in this area has taken up, 0 where it has no cursor.
pub fn cursor_of<B: Blobs>(alloc: Global, hive: HiveName, area: &mut B) -> Result<u32, RoundErr>
    ensures runs { EndsTo (Get cursor_name ∷ []) (B.seen area.old) (B.seen area.new) result }
    // Told as damaged, it was got.
    ensures got { IfErr result (λ e. IfDamagedText e (λ text. Makes (Get cursor_name ∷ []) (B.seen area.old) (B.seen area.new))) }
    ensures number { IfOk result (λ n. IfSome (B.seen area.old).held (λ m. IsCursor (get m cursor_name) n)) }
    ensures same { (B.seen area.new).held ≡ (B.seen area.old).held }
    ensures counts { CountsFault (B.seen area.old).faults (B.seen area.new).faults (IsErrOf result RoundErr.HiveFault) }
    ensures cause { IfErr result (IsNoNumber hive (B.seen area.old).held) }
{
    match cursor_in(alloc, area) {
        Ok(number) => Ok(number),
        Err(stop) => Err(round_err(alloc, hive, stop)),
    }
}

/// Takes a hive on from its cursor to the catalog's last commit: takes up the ids with an item behind the
/// cursor, in order of their first, one pass each, and then puts the cursor.
///
/// A pass gets the id's state, reads the leaf of each details item behind that state, and makes the calls of
/// `id_pass`. So it holds the rows behind the cursor, and of the documents those of one id, without the bytes of
/// packages and manifests, which it holds one at a time. A text of `Damaged` is `<area>/<name>`.
pub fn run_round<H: Hive, B: Blobs>(
    alloc: Global,
    catalog: &mut Catalog<B>,
    area: &mut B,
) -> Result<RoundOut, RoundErr>
    // The calls on the hive's store: the cursor is got, each id's pass is made, and the cursor is put; up to where it stopped.
    ensures runs { Rounds (fold_of H.keeps H.makes catalog.old.base) (IsOpenFor catalog.old (B.seen catalog.old.area)) (B.seen area.old)
        (B.seen area.new) result }

    // The calls on the catalog's store, where it is settled: the leaf of each details item behind the id's state, pass by pass, and then what
    // publishes brought, for each call that puts it; each once, up to where it stopped.
    ensures reads { catalog.old.settled ≡ true → RoundReads (fold_of H.keeps H.makes catalog.old.base) (IsOpenFor catalog.old (B.seen catalog.old.area))
        catalog.old.kept.rows (B.seen area.old) (B.seen area.new) (B.seen catalog.old.area) (B.seen catalog.new.area) result }

    ensures target { (cs : List Stored) → IsOpenFor catalog.old (B.seen catalog.old.area) cs → IfOk result (λ out. told_number out ≡ length cs) }
    ensures idle { IfOk result (λ out. IfIdle out (λ n. ((B.seen area.new).held ≡ (B.seen area.old).held)
        × IfSome (B.seen area.old).held (λ m. IsCursor (get m cursor_name) n))) }
    ensures done { (cs : List Stored) → IsOpenFor catalog.old (B.seen catalog.old.area) cs
        → IfOk result (λ out. IfDone out (λ n. IfSome (B.seen area.old).held (λ m. (c : ℕ) × IsCursor (get m cursor_name) c × (c < n)))) }

    // The catalog stays open, also at a crash; it may be settled first.
    ensures stays { StaysOpen catalog.old catalog.new (B.seen catalog.old.area) (B.seen catalog.new.area) (IsErrOf result RoundErr.CatalogFault) }
    ensures counts { CountsFault (B.seen area.old).faults (B.seen area.new).faults (IsErrOf result RoundErr.HiveFault) }
    ensures damaged { IfErr result (λ e. IfDamagedText e (IsDamagedBlob catalog.old catalog.new
        (B.seen catalog.old.area) (B.seen catalog.new.area) (B.seen area.new).held)) }
{
    match round::<H, B>(alloc, catalog, area) {
        Ok(out) => Ok(out),
        Err(stop) => Err(round_err(alloc, H::NAME, stop)),
    }
}
