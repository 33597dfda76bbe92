// Moments with their stamps, texts that name moments or none, and the moment after another.
use crate::same::same;
use nuget_version::Text;
use std::alloc::Global;
use std::test::Fail;
use ticks::{LAST, TickErr, Ticks, after};

// Moments around the turns of a year, of 4, of 100 and of 400 years, with the first, the last and the Unix epoch.
const PRINTED: &[(u64, &str)] = &[
    (0, "0001-01-01T00:00:00.0000000Z"),
    (1, "0001-01-01T00:00:00.0000001Z"),
    (315_359_999_999_999, "0001-12-31T23:59:59.9999999Z"),
    (315_360_000_000_000, "0002-01-01T00:00:00.0000000Z"),
    (996_192_000_000_000, "0004-02-28T00:00:00.0000000Z"),
    (997_056_000_000_000, "0004-02-29T00:00:00.0000000Z"),
    (997_920_000_000_000, "0004-03-01T00:00:00.0000000Z"),
    (1_261_440_000_000_000, "0004-12-31T00:00:00.0000000Z"),
    (1_262_304_000_000_000, "0005-01-01T00:00:00.0000000Z"),
    (31_292_351_999_999_999, "0100-02-28T23:59:59.9999999Z"),
    (31_292_352_000_000_000, "0100-03-01T00:00:00.0000000Z"),
    (31_555_872_000_000_000, "0100-12-31T00:00:00.0000000Z"),
    (31_556_736_000_000_000, "0101-01-01T00:00:00.0000000Z"),
    (125_961_696_000_000_000, "0400-02-28T00:00:00.0000000Z"),
    (125_962_560_000_000_000, "0400-02-29T00:00:00.0000000Z"),
    (125_963_424_000_000_000, "0400-03-01T00:00:00.0000000Z"),
    (126_227_807_999_999_999, "0400-12-31T23:59:59.9999999Z"),
    (126_227_808_000_000_000, "0401-01-01T00:00:00.0000000Z"),
    (599_316_192_000_000_000, "1900-02-28T00:00:00.0000000Z"),
    (599_317_056_000_000_000, "1900-03-01T00:00:00.0000000Z"),
    (621_355_968_000_000_000, "1970-01-01T00:00:00.0000000Z"),
    (630_873_792_000_000_000, "2000-02-29T00:00:00.0000000Z"),
    (630_874_656_000_000_000, "2000-03-01T00:00:00.0000000Z"),
    (638_131_392_000_000_000, "2023-02-28T00:00:00.0000000Z"),
    (638_132_256_000_000_000, "2023-03-01T00:00:00.0000000Z"),
    (638_396_640_000_000_000, "2024-01-01T00:00:00.0000000Z"),
    (638_447_616_000_000_000, "2024-02-29T00:00:00.0000000Z"),
    (638_712_000_000_000_000, "2024-12-31T00:00:00.0000000Z"),
    (3_155_063_616_000_000_000, "9999-01-01T00:00:00.0000000Z"),
    (3_155_113_728_000_000_000, "9999-02-28T00:00:00.0000000Z"),
    (3_155_114_592_000_000_000, "9999-03-01T00:00:00.0000000Z"),
    (3_155_378_975_999_999_999, "9999-12-31T23:59:59.9999999Z"),
];

const READ: &[(&str, Result<u64, TickErr>)] = &[
    ("2024-01-01T00:00:00Z", Ok(638_396_640_000_000_000)),
    (
        "9999-12-31T23:59:59.9999999Z",
        Ok(3_155_378_975_999_999_999),
    ),
    ("2024-02-30T00:00:00Z", Err(TickErr::OutOfRange)),
    ("2024-1", Err(TickErr::BadByte(6))),
    ("", Err(TickErr::BadByte(0))),
    ("0001-01-01T00:00:00Z", Ok(0)),
    ("2024-01-01T00:00:00+00:00", Ok(638_396_640_000_000_000)),
    ("2024-01-01T00:00:00.5Z", Ok(638_396_640_005_000_000)),
    ("2024-01-01T00:00:00.50+00:00", Ok(638_396_640_005_000_000)),
    ("2024-01-01T00:00:00.123Z", Ok(638_396_640_001_230_000)),
    ("2024-01-01T00:00:00.0001Z", Ok(638_396_640_000_001_000)),
    ("2024-01-01T00:00:00.12345Z", Ok(638_396_640_001_234_500)),
    ("2024-01-01T00:00:00.000009Z", Ok(638_396_640_000_000_090)),
    ("2024-01-01T00:00:00.1234567Z", Ok(638_396_640_001_234_567)),
    (
        "2024-01-01T00:00:00.0000001+00:00",
        Ok(638_396_640_000_000_001),
    ),
    ("2024-02-29T12:34:56Z", Ok(638_448_068_960_000_000)),
    ("2000-02-29T00:00:00Z", Ok(630_873_792_000_000_000)),
    ("2023-02-29T00:00:00Z", Err(TickErr::OutOfRange)),
    ("1900-02-29T00:00:00Z", Err(TickErr::OutOfRange)),
    ("2024-04-31T00:00:00Z", Err(TickErr::OutOfRange)),
    ("2024-00-10T00:00:00Z", Err(TickErr::OutOfRange)),
    ("2024-13-01T00:00:00Z", Err(TickErr::OutOfRange)),
    ("2024-01-00T00:00:00Z", Err(TickErr::OutOfRange)),
    ("0000-12-31T00:00:00Z", Err(TickErr::OutOfRange)),
    ("2024-01-01T24:00:00Z", Err(TickErr::OutOfRange)),
    ("2024-01-01T23:60:00Z", Err(TickErr::OutOfRange)),
    ("2024-01-01T23:59:60Z", Err(TickErr::OutOfRange)),
    ("2024-01-01T00:00:00+01:00", Err(TickErr::BadByte(21))),
    ("2024-01-01T00:00:00.12345678Z", Err(TickErr::BadByte(27))),
    ("2024-01-01T00:00:00.Z", Err(TickErr::BadByte(20))),
    ("2024-01-01T00:00:00", Err(TickErr::BadByte(19))),
    ("2024-01-01T00:00:00.1", Err(TickErr::BadByte(21))),
    ("2024-01-01T00:00:00Z ", Err(TickErr::BadByte(20))),
    ("2024-01-01t00:00:00Z", Err(TickErr::BadByte(10))),
    ("2024-01-01T00:00:00z", Err(TickErr::BadByte(19))),
    ("2024-01-01T00:00:00-00:00", Err(TickErr::BadByte(19))),
    ("2024-01-01T00:00:00+0000", Err(TickErr::BadByte(22))),
    ("2024-01-01T00:00:00+00:0", Err(TickErr::BadByte(24))),
    ("2024-01-01T00:00:00+00:00Z", Err(TickErr::BadByte(25))),
    ("024-01-01T00:00:00Z", Err(TickErr::BadByte(3))),
    ("12024-01-01T00:00:00Z", Err(TickErr::BadByte(4))),
    ("2024-01-01T0a:00:00Z", Err(TickErr::BadByte(12))),
    ("2024-02-30T24:60:60", Err(TickErr::BadByte(19))),
    ("٢024-01-01T00:00:00Z", Err(TickErr::BadByte(0))),
];

// The text of the moment with this number.
fn printed(alloc: Global, number: u64) -> Result<Text, Fail> {
    let moment = Ticks::of(number).ok_or("no moment")?;
    Ok(moment.print(alloc)?)
}

fn number_of(text: &str) -> Result<u64, TickErr> {
    match Ticks::read(text) {
        Ok(moment) => Ok(moment.number()),
        Err(refusal) => Err(refusal),
    }
}

#[test]
fn prints_moments_that_read_back(rt: HostRuntime) -> Result<(), Fail> {
    for (number, text) in PRINTED {
        let printed = printed(rt.alloc(), *number)?;
        same(&rt, printed.as_str(), *text, *number);
        same(&rt, number_of(text), Ok(*number), *text);
    }
    Ok(())
}

#[test]
fn reads_and_refuses(rt: HostRuntime) {
    for (text, want) in READ {
        same(&rt, number_of(text), *want, *text);
    }
}

// The numbers of a moment, of what the clock says, and of the moment after the first by that clock.
const FOLLOWING: [(u64, u64, Option<u64>); 7] = [
    (5, 9, Some(9)),
    (5, 6, Some(6)),
    (5, 5, Some(6)),
    (5, 0, Some(6)),
    (LAST - 1, 0, Some(LAST)),
    (LAST, LAST, None),
    (LAST, 0, None),
];

fn following(last: u64, now: u64) -> Result<Option<u64>, Fail> {
    let last = Ticks::of(last).ok_or("no moment")?;
    let now = Ticks::of(now).ok_or("no moment")?;
    Ok(after(last, now).map(|moment| moment.number()))
}

#[test]
fn follows_the_clock(rt: HostRuntime) -> Result<(), Fail> {
    for (last, now, want) in &FOLLOWING {
        let found = following(*last, *now)?;
        assert_eq!(rt; found, *want, "{last} {now}");
    }
    same(&rt, Ticks::of(LAST + 1), None, "what is behind the last");
    Ok(())
}
