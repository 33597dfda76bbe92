// Rows above a number.
ghost use Rattle.std.specs.Prelude.{◌≡◌, IfOk};
ghost use Rattle.catalog_items.specs.ByRows.{rows_above};

use catalog_doc::Row;
use pkg_meta::{Many, NoMemory};
use std::alloc::Global;

fn copy_row(alloc: Global, row: &Row) -> Result<Row, NoMemory>
    ensures { IfOk result (λ copy. copy ≡ row.now) }
{
    let id = row.id.copy(alloc)?;
    let version = row.version.copy(alloc)?;
    Ok(Row {
        number: row.number,
        place: row.place,
        stamp: row.stamp,
        id,
        version,
        gone: row.gone,
    })
}

/// The rows of the commits above a number.
pub fn rows_above(alloc: Global, rows: &[Row], cursor: u32) -> Result<Many<Row>, NoMemory>
    ensures { IfOk result (λ above. above ≡ rows_above cursor rows.now) }
{
    let mut above = Many::new(alloc);
    for row in rows {
        if row.number > cursor {
            above.push(copy_row(alloc, row)?)?;
        }
    }
    Ok(above)
}
