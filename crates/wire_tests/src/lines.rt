// Reply lines, with their two numbers.
use crate::same::same;
use admin_wire::{
    AreaName, Generated, Line, Refusal, hive_word, line_bytes, line_http, line_status,
};
use fold_core::HiveName;
use pkg_meta::{MetaErr, NoMemory, Text, Ticks};
use std::alloc::Global;
use std::str;
use std::test::Fail;

// The generator's line after 4096 packages, by hand.
const GENERATED: Generated = Generated {
    commits: 64,
    items: 4096,
    pages: 8,
    plain: 3710,
    semver2: 4296,
    content: 8392,
    auto: 200,
};

// Puts the line, with its status and HTTP's, each `-` where it has none, behind the text.
fn tell(alloc: Global, all: &mut String, line: &Line) -> Result<(), NoMemory> {
    let bytes = line_bytes(alloc, line)?;
    all.push_str(str::from_utf8(bytes.as_slice()).unwrap_or("?"))?;
    match line_status(line) {
        Some(status) => {
            let number = status.number;
            all.push_str(&format!(in alloc; "{number} ")?)?;
        }
        None => all.push_str("- ")?,
    }
    match line_http(line) {
        Some(number) => all.push_str(&format!(in alloc; "{number}\n")?)?,
        None => all.push_str("-\n")?,
    }
    Ok(())
}

fn told(alloc: Global, lines: &[Line]) -> Result<String, NoMemory> {
    let mut all = String::new(alloc);
    for line in lines {
        tell(alloc, &mut all, line)?;
    }
    Ok(all)
}

const DONE: &str =
    "committed 1 2024-01-01T00:00:00.0000000Z\n0 201\ndone content 12\n0 200\nleft semver2 foo\n- 409\nstopping\n- 200\ngenerated commits 64 items 4096 pages 8 plain 3710 semver2 4296 content 8392 auto 200\n0 -\n";

#[test]
fn tells_what_was_done(rt: HostRuntime) -> Result<(), Fail> {
    let alloc = rt.alloc();
    let stamp = Ticks::read("2024-01-01T00:00:00Z")?;
    let key = Text::copy_of(alloc, "foo")?;
    let lines = [
        Line::Committed { number: 1, stamp },
        Line::Done(HiveName::Content, 12),
        Line::Left(HiveName::SemVer2, key),
        Line::Stopping,
        Line::Generated(GENERATED),
    ];
    same(&rt, told(alloc, &lines)?.as_str(), DONE, "what was done");
    Ok(())
}

const REFUSED: &str =
    "refused exists 0 1\n3 409\nrefused toomany 65\n3 400\nrefused meta 2 range dependencyGroups/0/dependencies/1/range\n3 400\nrefused missing\n3 404\nrefused base http://f.test/ http://g.test/\n3 -\n";

#[test]
fn tells_what_was_refused(rt: HostRuntime) -> Result<(), Fail> {
    let alloc = rt.alloc();
    let path = Text::copy_of(alloc, "dependencyGroups/0/dependencies/1/range")?;
    let why = MetaErr::BadRange(path);
    let stored = Text::copy_of(alloc, "http://f.test/")?;
    let given = Text::copy_of(alloc, "http://g.test/")?;
    let lines = [
        Line::Refused(Refusal::Exists {
            place: 0,
            number: 1,
        }),
        Line::Refused(Refusal::TooMany(65)),
        Line::Refused(Refusal::Meta { place: 2, why }),
        Line::Refused(Refusal::Missing),
        Line::Refused(Refusal::Base { stored, given }),
    ];
    same(
        &rt,
        told(alloc, &lines)?.as_str(),
        REFUSED,
        "what was refused",
    );
    Ok(())
}

const FAILED: &str =
    "fault catalog\n4 503\nfault auto\n4 503\nfault input\n5 -\ndamaged catalog/data/1/0.json\n6 500\ntoolong\n7 -\nmemory\n8 507\n";

#[test]
fn tells_what_failed(rt: HostRuntime) -> Result<(), Fail> {
    let alloc = rt.alloc();
    let name = Text::copy_of(alloc, "data/1/0.json")?;
    let lines = [
        Line::Fault(AreaName::Catalog),
        Line::Fault(AreaName::Hive(HiveName::Auto)),
        Line::FaultInput,
        Line::Damaged(AreaName::Catalog, name),
        Line::TooLong,
        Line::Memory,
    ];
    same(&rt, told(alloc, &lines)?.as_str(), FAILED, "what failed");
    same(&rt, hive_word(HiveName::Plain), "plain", "a hive");
    Ok(())
}
