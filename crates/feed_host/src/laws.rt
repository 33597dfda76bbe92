// What holds of requests that were answered.
ghost use Rattle.feed_host.specs.Laws.{IsFirstOfTalk, IsNextOfTalk};

/// Requests that follow one another from an input's first byte on are the first ones of its talk, and the request
/// behind them is the next one.
pub fn first_of_its_talk()
    ensures first { IsFirstOfTalk }
    ensures next { IsNextOfTalk }
{}
