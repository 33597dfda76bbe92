// What holds of `Ask` and of `Talk` for all bytes.
ghost use Rattle.http_wire.specs.Laws.{EndsAtBad, EndsAtClosed, EndsAtLast, GoesOn, HasOneFront, IsOneTalk, LeadsOn, RefusalStands, RequestStands, StartsHere, TalksOn};
ghost use Rattle.http_wire.specs.Statuses.{RefusalsHaveStatuses};

/// One thing stands at the front of some bytes.
pub fn one_answer()
    ensures { HasOneFront }
{}

/// A request and a refusal stand, whatever bytes follow.
pub fn requests_stand()
    ensures request { RequestStands }
    ensures refusal { RefusalStands }
{}

/// A refusal has one of five statuses: 400, 413, 415, 431 or 501.
pub fn refusals_have_statuses()
    ensures { RefusalsHaveStatuses }
{}

/// An input is one talk, with one ending.
pub fn one_talk()
    ensures { IsOneTalk }
{}

/// What a reader answers of an input is the first request of its talk, or ends it.
pub fn talk_on()
    ensures first { GoesOn }
    ensures last { EndsAtLast }
    ensures closed { EndsAtClosed }
    ensures refused { EndsAtBad }
{}

/// Requests that lead from an input to the bytes behind them are the first of its talk.
pub fn leads_on()
    ensures none { StartsHere }
    ensures more { LeadsOn }
    ensures talk { TalksOn }
{}
