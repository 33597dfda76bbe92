// The cursor of the hive's area.
ghost use Rattle.std.specs.Prelude.{◌≡◌, ◌∷◌, [], IfErr, IfOk, IfSome};
ghost use Rattle.std.specs.FinMap as map;
ghost use Rattle.blob_store.specs.Events.{Get};
ghost use Rattle.blob_store.specs.Plans.{Makes};
ghost use Rattle.cursor_doc.specs.Cursor.{cursor_name};
ghost use Rattle.job_round.specs.Cursors.{IsCursor, IsNoCursor, IsReadAsCursor};
ghost use Rattle.job_round.specs.Rounds.{RunsLast, cursor_put};
ghost use Rattle.job_round.specs.Stops.{IfHiveDamaged, IsDamage, IsOfHive, RunsTo};

use crate::calls::{get, put};
use crate::stop::Stop;
use blob_store::Blobs;
use cursor_doc::{CURSOR_NAME, DocErr, Mark, cursor_bytes, read_cursor};
use pkg_meta::{NoMemory, Text};
use std::alloc::Global;

// The number that a cursor document tells.
fn number_in(alloc: Global, bytes: &[u8]) -> Result<Option<u32>, NoMemory>
    ensures { IfOk result (IsReadAsCursor bytes.now) }
{
    match read_cursor(alloc, bytes) {
        Ok(mark) => Ok(Some(mark.number)),
        Err(DocErr::Damaged) => Ok(None),
        Err(DocErr::Memory) => Err(NoMemory),
    }
}

/// What is told where the cursor is damaged.
pub(crate) fn damaged_cursor(alloc: Global) -> Stop
    ensures { IsDamage (λ name. name ≡ cursor_name) result }
{
    match Text::copy_of(alloc, CURSOR_NAME) {
        Ok(name) => Stop::HiveDamaged(name),
        Err(_) => Stop::Memory,
    }
}

/// The number of the last commit that the hive has taken up.
pub(crate) fn cursor_in<B: Blobs>(alloc: Global, area: &mut B) -> Result<u32, Stop>
    ensures runs { RunsTo (Get cursor_name ∷ []) (B.seen area.old) (B.seen area.new) result }
    ensures got { IfErr result (λ stop. IfHiveDamaged stop (Makes (Get cursor_name ∷ []) (B.seen area.old) (B.seen area.new))) }
    ensures same { (B.seen area.new).held ≡ (B.seen area.old).held }
    ensures number { IfOk result (λ n. IfSome (B.seen area.old).held (λ m. IsCursor (map.get m cursor_name) n)) }
    ensures cause { IfErr result (IsOfHive (λ name. (name ≡ cursor_name) × IfSome (B.seen area.old).held (λ m. IsNoCursor (map.get m cursor_name)))) }
{
    let Some(bytes) = get(alloc, area, CURSOR_NAME)? else {
        return Ok(0);
    };
    match number_in(alloc, bytes.as_slice())? {
        Some(number) => Ok(number),
        None => Err(damaged_cursor(alloc)),
    }
}

/// Puts the cursor.
pub(crate) fn put_cursor<B: Blobs>(alloc: Global, area: &mut B, mark: &Mark) -> Result<(), Stop>
    ensures runs { RunsLast (cursor_put mark.now.number mark.now.stamp) (B.seen area.old) (B.seen area.new) result }
    ensures cause { IfErr result (IsOfHive (λ n. ⊥)) }
{
    let bytes = cursor_bytes(alloc, mark)?;
    put(alloc, area, CURSOR_NAME, bytes.as_slice())
}
