// Publishes from the input.
ghost use Rattle.std.specs.Prelude.{◌≡◌, IfOk, IfErr};
ghost use Rattle.feed_base.specs.Counts.{HasRisen};
ghost use Rattle.feed_app.specs.Publishes.{Brings, NotTaken};

use crate::answer::Answer;
use admin_wire::{Line, read_publish};
use catalog_core::Changes;
use feed_base::{Source, read_all};
use std::alloc::Global;

/// How many bytes an input has at the most.
const MOST_INPUT: u64 = 67_108_864;

/// Takes the whole input, which is a body of publishes.
pub(crate) fn take_publish<I: Source>(alloc: Global, input: &mut I) -> Result<Changes, Answer>
    ensures taken { IfOk result (Brings (I.left input.old)) }
    ensures not_taken { IfErr result (λ a. NotTaken a (I.left input.old)) }
    ensures cause { IfErr result (λ a. a ≡ Answer.Reply Line.FaultInput → HasRisen (I.faults input.old) (I.faults input.new)) }
{
    let body = match read_all(alloc, input, MOST_INPUT) {
        Ok(body) => body,
        Err(error) => return Err(Answer::of_input(error)),
    };
    match read_publish(alloc, body.as_slice()) {
        Ok(changes) => Ok(changes),
        Err(error) => Err(Answer::Reply(Line::from(error))),
    }
}
