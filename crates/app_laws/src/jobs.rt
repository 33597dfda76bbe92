// What a job leaves of its hive's area, and which cursor is told.
ghost use Rattle.std.specs.Prelude.{◌≡◌, ◌⊎◌, ℕ, List, length, Some};
ghost use Rattle.blob_store.specs.Moments.{LeavesOnly};
ghost use Rattle.pkg_meta.specs.Catalog.{Catalog};
ghost use Rattle.fold_core.specs.declared.hive.HiveName.{HiveName};
ghost use Rattle.hive_laws.specs.Areas.{SettledArea};
ghost use Rattle.round_laws.specs.OnAreas.{HoldsArea, IsSoundOrSettled};
ghost use Rattle.admin_wire.specs.Lines.{line_text};
ghost use Rattle.admin_wire.specs.declared.area.AreaName.TheVariants as area;
ghost use Rattle.admin_wire.specs.declared.line.Line.TheVariants as line;
ghost use Rattle.feed_app.specs.Commands.{Cursor, Job, command_of};
ghost use Rattle.feed_app.specs.Hives.{hive_fold};
ghost use Rattle.feed_app.specs.Outside.{area_of, bounds, output_of};
ghost use Rattle.feed_app.specs.Runs.{ForRuns};
ghost use Rattle.feed_app.specs.SoundHives.{HoldsHive};
ghost use Rattle.feed_app.specs.Writes.{HasMore};
ghost use Rattle.app_laws.specs.Scratch.{IsFromScratchOf};

use blob_store::Blobs;
use feed_base::{Clock, Sink, Source};

/// A job of status 0, over a hive that was sound, leaves exactly what the hive makes of the whole catalog from scratch.
pub fn jobs_leave_documents<B: Blobs, I: Source, O: Sink, C: Clock>()
    ensures settled { let b = bounds B.Blobs I.Source O.Sink C.Clock in ForRuns b (λ words before status after.
        (hive : HiveName) (base : List ℕ) (cs : Catalog) (c : ℕ)
        → command_of words ≡ Some (Job hive) → HoldsHive b.blobs before.stores hive base cs c → status ≡ 0
        → HoldsArea (b.blobs.seen (area_of after.stores (area.Hive hive))) (SettledArea (hive_fold hive base) cs (length cs))) }
    ensures documents { let b = bounds B.Blobs I.Source O.Sink C.Clock in ForRuns b (λ words before status after.
        (hive : HiveName) (base : List ℕ) (cs : Catalog) (c : ℕ)
        → command_of words ≡ Some (Job hive) → HoldsHive b.blobs before.stores hive base cs c → status ≡ 0
        → HoldsArea (b.blobs.seen (area_of after.stores (area.Hive hive))) (IsFromScratchOf hive base cs)) }
{}

/// Whatever a job over a sound hive answers, the hive is sound with its cursor where it was, or exactly what it makes of the whole
/// catalog; so is what a crash leaves at each moment.
pub fn jobs_stay_sound<B: Blobs, I: Source, O: Sink, C: Clock>()
    ensures held { let b = bounds B.Blobs I.Source O.Sink C.Clock in ForRuns b (λ words before status after.
        (hive : HiveName) (base : List ℕ) (cs : Catalog) (c : ℕ)
        → command_of words ≡ Some (Job hive) → HoldsHive b.blobs before.stores hive base cs c
        → HoldsArea (b.blobs.seen (area_of after.stores (area.Hive hive))) (IsSoundOrSettled (hive_fold hive base) cs c)) }
    ensures moments { let b = bounds B.Blobs I.Source O.Sink C.Clock in ForRuns b (λ words before status after.
        (hive : HiveName) (base : List ℕ) (cs : Catalog) (c : ℕ)
        → command_of words ≡ Some (Job hive) → HoldsHive b.blobs before.stores hive base cs c
        → LeavesOnly (b.blobs.seen (area_of before.stores (area.Hive hive))) (b.blobs.seen (area_of after.stores (area.Hive hive)))
        (IsSoundOrSettled (hive_fold hive base) cs c)) }
{}

/// A `cursor` of status 0 over a sound hive tells where its cursor stands, and a job of status 0 the number of the commits, where it then
/// stands.
pub fn cursors_are_told<B: Blobs, I: Source, O: Sink, C: Clock>()
    ensures cursor { let b = bounds B.Blobs I.Source O.Sink C.Clock in ForRuns b (λ words before status after.
        (hive : HiveName) (base : List ℕ) (cs : Catalog) (c : ℕ)
        → command_of words ≡ Some (Cursor hive) → HoldsHive b.blobs before.stores hive base cs c → status ≡ 0
        → HasMore (line_text (line.Cursor hive c)) (output_of b.sink before.output) (output_of b.sink after.output)) }
    ensures job { let b = bounds B.Blobs I.Source O.Sink C.Clock in ForRuns b (λ words before status after.
        (hive : HiveName) (base : List ℕ) (cs : Catalog) (c : ℕ)
        → command_of words ≡ Some (Job hive) → HoldsHive b.blobs before.stores hive base cs c → status ≡ 0
        → HasMore (line_text (line.Done hive (length cs))) (output_of b.sink before.output) (output_of b.sink after.output)
        ⊎ HasMore (line_text (line.Idle hive (length cs))) (output_of b.sink before.output) (output_of b.sink after.output)) }
{}
