// The text of a reply line.
ghost use Rattle.std.specs.Prelude.{◌≡◌, IfOk};
ghost use Rattle.admin_wire.specs.Lines.{base_text, committed_text, damaged_text, fault_text, generated_text, hive_name_text, hive_number_text};
ghost use Rattle.admin_wire.specs.Lines.{line_text, meta_text, number_text, place_text, refusal_text, refused_meta_text};

use crate::area::{AreaName, area_word, hive_word};
use crate::line::{Generated, Line, Refusal};
use fold_core::HiveName;
use pkg_meta::{Bytes, MetaErr, NoMemory, Text, Ticks};
use std::alloc::Global;

/// The line for want of memory, which may be needed where no bytes can be made.
pub const MEMORY_LINE: &str = "memory\n";

fn number_line(alloc: Global, words: &str, n: u64) -> Result<Bytes, NoMemory>
    ensures { IfOk result (λ b. b ≡ number_text words.now n) }
{
    Ok(Bytes::of(format!(in alloc; "{words} {n}\n")?.into_bytes()))
}

fn place_line(alloc: Global, words: &str, place: u32, number: u32) -> Result<Bytes, NoMemory>
    ensures { IfOk result (λ b. b ≡ place_text words.now place number) }
{
    Ok(Bytes::of(format!(in alloc; "{words} {place} {number}\n")?.into_bytes()))
}

fn hive_number_line(alloc: Global, word: &str, hive: HiveName, n: u32) -> Result<Bytes, NoMemory>
    ensures { IfOk result (λ b. b ≡ hive_number_text word.now hive n) }
{
    let hive = hive_word(hive);
    Ok(Bytes::of(format!(in alloc; "{word} {hive} {n}\n")?.into_bytes()))
}

fn hive_name_line(alloc: Global, word: &str, hive: HiveName, name: &str) -> Result<Bytes, NoMemory>
    ensures { IfOk result (λ b. b ≡ hive_name_text word.now hive name.now) }
{
    let hive = hive_word(hive);
    Ok(Bytes::of(format!(in alloc; "{word} {hive} {name}\n")?.into_bytes()))
}

fn committed_line(alloc: Global, number: u32, stamp: Ticks) -> Result<Bytes, NoMemory>
    ensures { IfOk result (λ b. b ≡ committed_text number stamp) }
{
    let stamp = stamp.print(alloc)?;
    let stamp = stamp.as_str();
    Ok(Bytes::of(format!(in alloc; "committed {number} {stamp}\n")?.into_bytes()))
}

fn generated_line(alloc: Global, numbers: Generated) -> Result<Bytes, NoMemory>
    ensures { IfOk result (λ b. b ≡ generated_text numbers) }
{
    let (commits, items, pages) = (numbers.commits, numbers.items, numbers.pages);
    let (plain, semver2) = (numbers.plain, numbers.semver2);
    let (content, auto) = (numbers.content, numbers.auto);
    let hives = format!(in alloc; "plain {plain} semver2 {semver2} content {content} auto {auto}")?;
    let hives = hives.as_str();
    let line = format!(in alloc;
        "generated commits {commits} items {items} pages {pages} {hives}\n"
    )?;
    Ok(Bytes::of(line.into_bytes()))
}

fn fault_line(alloc: Global, area: AreaName) -> Result<Bytes, NoMemory>
    ensures { IfOk result (λ b. b ≡ fault_text area) }
{
    let area = area_word(area);
    Ok(Bytes::of(format!(in alloc; "fault {area}\n")?.into_bytes()))
}

fn damaged_line(alloc: Global, area: AreaName, name: &str) -> Result<Bytes, NoMemory>
    ensures { IfOk result (λ b. b ≡ damaged_text area name.now) }
{
    let area = area_word(area);
    Ok(Bytes::of(format!(in alloc; "damaged {area}/{name}\n")?.into_bytes()))
}

fn base_line(alloc: Global, stored: &str, given: &str) -> Result<Bytes, NoMemory>
    ensures { IfOk result (λ b. b ≡ base_text stored.now given.now) }
{
    Ok(Bytes::of(format!(in alloc; "refused base {stored} {given}\n")?.into_bytes()))
}

// Why metadata is refused, in words.
fn meta_words(alloc: Global, why: &MetaErr) -> Result<Text, NoMemory>
    ensures { IfOk result (λ t. t ≡ meta_text why.now) }
{
    let (word, text) = match why {
        MetaErr::TooLarge(len) => return Ok(Text::of(format!(in alloc; "large {len}")?)),
        MetaErr::NotJson => return Text::copy_of(alloc, "json"),
        MetaErr::BadVersion => return Text::copy_of(alloc, "version"),
        MetaErr::Memory => return Text::copy_of(alloc, "memory"),
        MetaErr::Field(name) => ("field", name.as_str()),
        MetaErr::BadId(path) => ("id", path.as_str()),
        MetaErr::BadRange(path) => ("range", path.as_str()),
    };
    Ok(Text::of(format!(in alloc; "{word} {text}")?))
}

fn meta_line(alloc: Global, place: u64, why: &MetaErr) -> Result<Bytes, NoMemory>
    ensures { IfOk result (λ b. b ≡ refused_meta_text place why.now) }
{
    let words = meta_words(alloc, why)?;
    let words = words.as_str();
    Ok(Bytes::of(format!(in alloc; "refused meta {place} {words}\n")?.into_bytes()))
}

fn refusal_bytes(alloc: Global, why: &Refusal) -> Result<Bytes, NoMemory>
    ensures { IfOk result (λ b. b ≡ refusal_text why.now) }
{
    match why {
        Refusal::Exists { place, number } => place_line(alloc, "refused exists", *place, *number),
        Refusal::Absent { place, number } => place_line(alloc, "refused absent", *place, *number),
        Refusal::Already { place, number } => place_line(alloc, "refused already", *place, *number),
        Refusal::Twice(place) => number_line(alloc, "refused twice", u64::from(*place)),
        Refusal::IdFull(place) => number_line(alloc, "refused idfull", u64::from(*place)),
        Refusal::Full(items) => number_line(alloc, "refused full", u64::from(*items)),
        Refusal::ClockEnd => Bytes::copy_of(alloc, b"refused clockend\n"),
        Refusal::Empty => Bytes::copy_of(alloc, b"refused empty\n"),
        Refusal::TooMany(len) => number_line(alloc, "refused toomany", *len),
        Refusal::Body(at) => number_line(alloc, "refused body", *at),
        Refusal::Id(place) => number_line(alloc, "refused id", *place),
        Refusal::Version(place) => number_line(alloc, "refused version", *place),
        Refusal::Meta { place, why } => meta_line(alloc, *place, why),
        Refusal::Missing => Bytes::copy_of(alloc, b"refused missing\n"),
        Refusal::Initialised => Bytes::copy_of(alloc, b"refused initialised\n"),
        Refusal::Uninitialised => Bytes::copy_of(alloc, b"refused uninitialised\n"),
        Refusal::Base { stored, given } => base_line(alloc, stored.as_str(), given.as_str()),
        Refusal::NotEmpty(commits) => number_line(alloc, "refused notempty", u64::from(*commits)),
        Refusal::Served => Bytes::copy_of(alloc, b"refused served\n"),
        Refusal::Line(n) => number_line(alloc, "refused line", *n),
    }
}

/// The line's bytes, with its line feed.
pub fn line_bytes(alloc: Global, line: &Line) -> Result<Bytes, NoMemory>
    ensures { IfOk result (λ b. b ≡ line_text line.now) }
{
    match line {
        Line::Initialised => Bytes::copy_of(alloc, b"initialised\n"),
        Line::Committed { number, stamp } => committed_line(alloc, *number, *stamp),
        Line::Done(hive, n) => hive_number_line(alloc, "done", *hive, *n),
        Line::Idle(hive, n) => hive_number_line(alloc, "idle", *hive, *n),
        Line::Joined(hive, n) => hive_number_line(alloc, "joined", *hive, *n),
        Line::Left(hive, key) => hive_name_line(alloc, "left", *hive, key.as_str()),
        Line::Cursor(hive, n) => hive_number_line(alloc, "cursor", *hive, *n),
        Line::Same(hive, n) => hive_number_line(alloc, "same", *hive, *n),
        Line::Stopping => Bytes::copy_of(alloc, b"stopping\n"),
        Line::Differs(hive, name) => hive_name_line(alloc, "differs", *hive, name.as_str()),
        Line::Generated(numbers) => generated_line(alloc, *numbers),
        Line::Refused(why) => refusal_bytes(alloc, why),
        Line::Fault(area) => fault_line(alloc, *area),
        Line::FaultInput => Bytes::copy_of(alloc, b"fault input\n"),
        Line::Damaged(area, name) => damaged_line(alloc, *area, name.as_str()),
        Line::TooLong => Bytes::copy_of(alloc, b"toolong\n"),
        Line::Memory => Bytes::copy_of(alloc, MEMORY_LINE.as_bytes()),
    }
}
