// What each refusal says.
use crate::same::same;
use package_id::IdErr;
use std::alloc::{AllocError, Global};
use std::fmt::Display;
use std::process::Abort;
use std::test::Fail;
use ticks::TickErr;
use version_range::RangeErr;

const OF_RANGES: [(RangeErr, &str); 5] = [
    (
        RangeErr::Floating(2),
        "floating ranges aren't supported: `*` at byte 2",
    ),
    (RangeErr::BadBound(1), "not a version at byte 1"),
    (
        RangeErr::BadByte(3),
        "a bracket or comma is missing or wrong at byte 3",
    ),
    (
        RangeErr::Inverted,
        "the range is empty: its lower end is not below its upper end",
    ),
    (RangeErr::Memory, "out of memory"),
];

const OF_IDS: [(IdErr, &str); 4] = [
    (IdErr::Empty, "a package id can't be empty"),
    (
        IdErr::TooLong(101),
        "a package id has at most 100 bytes, this one has 101",
    ),
    (IdErr::BadByte(4), "not a package id at byte 4"),
    (IdErr::Memory, "out of memory"),
];

const OF_MOMENTS: [(TickErr, &str); 3] = [
    (TickErr::BadByte(6), "not a UTC date and time at byte 6"),
    (TickErr::OutOfRange, "no such date and time"),
    (TickErr::Memory, "out of memory"),
];

fn say<E: Display>(rt: &impl Abort, alloc: Global, rows: &[(E, &str)]) -> Result<(), AllocError> {
    for (error, text) in rows {
        let said = format!(in alloc; "{error}")?;
        same(rt, said.as_str(), *text, "a refusal");
    }
    Ok(())
}

#[test]
fn refusals_say_what_is_wrong(rt: HostRuntime) -> Result<(), Fail> {
    say(&rt, rt.alloc(), &OF_RANGES)?;
    say(&rt, rt.alloc(), &OF_IDS)?;
    say(&rt, rt.alloc(), &OF_MOMENTS)?;
    Ok(())
}
