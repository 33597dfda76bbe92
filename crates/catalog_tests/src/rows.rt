// The rows of the first publish, and those of a delete behind them.
ghost use Rattle.std.specs.Prelude.{◌≡◌, IfOk, length};

use crate::feeds::{one, pair, publish};
use crate::openings::{INDEX, PAGE, store};
use catalog_doc::{Change, CommitErr, Row};
use catalog_opening::read_catalog;
use catalog_rows::{Rows, shape_refusal};
use pkg_meta::{Many, NoMemory, PackageId, Ticks, Version};
use std::alloc::{AllocError, Global};
use std::test::Fail;

// The number of Foo's last commit, how many live versions it has, how many rows there are and on the last page, why its
// publish is refused, and the next number: after the publish, and after a delete.
const TOLD: &str = "\
1 1 1 1 exists 0 1, 2
2 0 2 2 none, 3
";

fn delete(alloc: Global, id: &PackageId, version: &Version) -> Result<Many<Row>, NoMemory>
    ensures { IfOk result (λ rows. length rows ≡ 1) }
{
    let id = id.copy(alloc)?;
    let version = version.copy(alloc)?;
    let mut rows = Many::new(alloc);
    rows.push(Row {
        number: 2,
        place: 0,
        stamp: Ticks::of(638_396_640_000_000_001).unwrap(),
        id,
        version,
        gone: true,
    })?;
    Ok(rows)
}

// Why these changes are refused, by their shape or by the rows.
fn refusal(alloc: Global, rows: &Rows, changes: &[Change]) -> Result<Option<CommitErr>, NoMemory> {
    match shape_refusal(changes) {
        Some(error) => Ok(Some(error)),
        None => rows.refusal(alloc, changes),
    }
}

fn reason_line(alloc: Global, reason: &Option<CommitErr>) -> Result<String, AllocError> {
    match reason {
        Some(CommitErr::Exists(place, number)) => { format!(in alloc; "exists {place} {number}") }
        Some(error) => format!(in alloc; "{error}"),
        None => String::from_str(alloc, "none"),
    }
}

fn last_number(
    alloc: Global,
    rows: &Rows,
    id: &PackageId,
    version: &Version,
) -> Result<u32, NoMemory> {
    Ok(rows.last(alloc, id, version)?.map_or(0, |row| row.number))
}

// Why a publish of the same version is refused.
fn reason(alloc: Global, rows: &Rows) -> Result<String, NoMemory> {
    let changes = one(alloc, publish(alloc, "foo", "1.0")?)?;
    let reason = refusal(alloc, rows, changes.as_slice())?;
    Ok(reason_line(alloc, &reason)?)
}

fn line(alloc: Global, rows: &Rows, id: &PackageId, version: &Version) -> Result<String, NoMemory> {
    let last = last_number(alloc, rows, id, version)?;
    let why = reason(alloc, rows)?;
    let (live, count, page) = (rows.live(id), rows.len(), rows.last_page().len());
    Ok(format!(in alloc;
        "{last} {live} {count} {page} {why}, {}\n",
        rows.next_number()
    )?)
}

// The rows of an area that holds the first publish.
fn rows_of_first(alloc: Global) -> Result<Rows, NoMemory> {
    let mut area = store(alloc, &[INDEX, PAGE])?;
    match read_catalog(alloc, &mut area, None) {
        Ok(known) => Rows::of(alloc, known.rows, known.pages),
        Err(_) => Err(NoMemory),
    }
}

#[test]
fn rows_follow_commits(rt: HostRuntime) -> Result<(), Fail> {
    let alloc = rt.alloc();
    let mut rows = rows_of_first(alloc)?;
    let (id, version) = pair(alloc, "FOO", "1.0.0")?;
    let mut told = line(alloc, &rows, &id, &version)?;
    rows.add(alloc, delete(alloc, &id, &version)?)?;
    told.push_str(&line(alloc, &rows, &id, &version)?)?;
    assert_eq!(rt; told.as_str(), TOLD);
    Ok(())
}

#[test]
fn no_changes_are_refused(rt: HostRuntime) -> Result<(), Fail> {
    assert!(rt; shape_refusal(&[]).is_some());
    let changes = one(rt.alloc(), publish(rt.alloc(), "foo", "1.0")?)?;
    assert!(rt; shape_refusal(changes.as_slice()).is_none());
    Ok(())
}
