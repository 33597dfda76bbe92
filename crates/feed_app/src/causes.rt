// The answers for what a lower call answers.
ghost use Rattle.std.specs.Prelude.{◌≡◌, ℕ, List};
ghost use Rattle.admin_wire.specs.Lines.{area_text, hive_text};
ghost use Rattle.fold_core.specs.declared.hive.HiveName.{HiveName};
ghost use Rattle.job_round.specs.Answers.{in_catalog, in_hive};

use crate::answer::Answer;
use crate::cut::at_slash;
use admin_wire::{AreaName, Line, Refusal};
use catalog_core::{CommitErr, InitErr, OpenErr, ReadErr};
use feed_base::TakeErr;
use fold_core::HiveName;
use job_round::{RoundErr, RoundOut};
use pkg_meta::{NoMemory, Text};
use std::alloc::Global;

// The catalog's area by its word, and else this hive's.
fn area_named(hive: HiveName, word: &str) -> AreaName
    ensures catalog { word.now ≡ area_text AreaName.Catalog → result ≡ AreaName.Catalog }
    ensures hive { (other : HiveName) → word.now ≡ hive_text other → result ≡ AreaName.Hive hive }
{
    match word {
        "catalog" => AreaName::Catalog,
        _ => AreaName::Hive(hive),
    }
}

// The area and the name of a blob, by its text `<area>/<name>`.
fn area_and_name(hive: HiveName, text: &str) -> (AreaName, &str)
    ensures catalog { (name : List ℕ) → text.now ≡ in_catalog name → (result.0 ≡ AreaName.Catalog) × (result.1.now ≡ name) }
    ensures hive { (other : HiveName) (name : List ℕ) → text.now ≡ in_hive other name → (result.0 ≡ AreaName.Hive hive) × (result.1.now ≡ name) }
{
    match at_slash(text) {
        Some((word, name)) => (area_named(hive, word), name),
        None => (AreaName::Hive(hive), text),
    }
}

impl Answer {
    ghost use Rattle.feed_app.specs.Causes.{take_answer, init_answer, open_answer, commit_answer, read_answer, AnswersDamagedText, AnswersRound, AnswersStop};

    /// The answer for an input that wasn't taken.
    pub(crate) fn of_input(error: TakeErr) -> Answer
        ensures { result ≡ take_answer error }
    {
        Answer::Reply(match error {
            TakeErr::ReadFault => Line::FaultInput,
            TakeErr::TooLong => Line::TooLong,
            TakeErr::Memory => Line::Memory,
        })
    }

    /// The answer for a catalog that wasn't made.
    pub(crate) fn of_init(error: InitErr) -> Answer
        ensures { result ≡ init_answer error }
    {
        Answer::Reply(match error {
            InitErr::Fault => Line::Fault(AreaName::Catalog),
            InitErr::Already => Line::Refused(Refusal::Initialised),
            InitErr::Memory => Line::Memory,
        })
    }

    /// The answer for a catalog that wasn't opened.
    pub(crate) fn of_opening(error: OpenErr) -> Answer
        ensures { result ≡ open_answer error }
    {
        Answer::Reply(match error {
            OpenErr::Fault => Line::Fault(AreaName::Catalog),
            OpenErr::Missing => Line::Refused(Refusal::Uninitialised),
            OpenErr::Damaged(name) => Line::Damaged(AreaName::Catalog, name),
            OpenErr::BaseDiffers(stored, given) => Line::Refused(Refusal::Base { stored, given }),
            OpenErr::Memory => Line::Memory,
        })
    }

    /// The answer for a commit that wasn't made.
    pub(crate) fn of_commit(error: CommitErr) -> Answer
        ensures { result ≡ commit_answer error }
    {
        let refusal = match error {
            CommitErr::Fault => return Answer::Reply(Line::Fault(AreaName::Catalog)),
            CommitErr::Damaged(name) => return Answer::Reply(Line::Damaged(
                AreaName::Catalog,
                name,
            )),
            CommitErr::Memory => return Answer::Reply(Line::Memory),
            CommitErr::Exists(place, number) => Refusal::Exists { place, number },
            CommitErr::Absent(place, number) => Refusal::Absent { place, number },
            CommitErr::Already(place, number) => Refusal::Already { place, number },
            CommitErr::Twice(place) => Refusal::Twice(place),
            CommitErr::IdFull(place) => Refusal::IdFull(place),
            CommitErr::Full(items) => Refusal::Full(items),
            CommitErr::ClockEnd => Refusal::ClockEnd,
            CommitErr::Empty => Refusal::Empty,
            CommitErr::TooMany(count) => Refusal::TooMany(count),
        };
        Answer::Reply(Line::Refused(refusal))
    }

    /// The answer for a blob of the catalog that wasn't read.
    pub(crate) fn of_catalog_read(error: ReadErr) -> Answer
        ensures { result ≡ read_answer error }
    {
        Answer::Reply(match error {
            ReadErr::Damaged(name) => Line::Damaged(AreaName::Catalog, name),
            ReadErr::Fault => Line::Fault(AreaName::Catalog),
            ReadErr::Memory => Line::Memory,
        })
    }

    // The answer for a damaged blob, whose text is `<area>/<name>`.
    fn of_damage(alloc: Global, hive: HiveName, text: &str) -> Answer
        ensures { AnswersDamagedText hive text.now result }
    {
        let (area, name) = area_and_name(hive, text);
        match Text::copy_of(alloc, name) {
            Ok(name) => Answer::Reply(Line::Damaged(area, name)),
            Err(NoMemory) => Answer::Reply(Line::Memory),
        }
    }

    /// The answer for a round of the hive that stopped, or for its cursor.
    pub(crate) fn of_stop(alloc: Global, hive: HiveName, error: RoundErr) -> Answer
        ensures { AnswersStop hive error result }
    {
        match error {
            RoundErr::CatalogFault => Answer::Reply(Line::Fault(AreaName::Catalog)),
            RoundErr::HiveFault => Answer::Reply(Line::Fault(AreaName::Hive(hive))),
            RoundErr::Damaged(text) => Answer::of_damage(alloc, hive, text.as_str()),
            RoundErr::Memory => Answer::Reply(Line::Memory),
        }
    }

    /// The answer for a round of the hive.
    pub(crate) fn of_round(
        alloc: Global,
        hive: HiveName,
        round: Result<RoundOut, RoundErr>,
    ) -> Answer
        ensures { AnswersRound hive round result }
    {
        match round {
            Ok(RoundOut::Done(number)) => Answer::Reply(Line::Done(hive, number)),
            Ok(RoundOut::Idle(number)) => Answer::Reply(Line::Idle(hive, number)),
            Err(error) => Answer::of_stop(alloc, hive, error),
        }
    }
}
