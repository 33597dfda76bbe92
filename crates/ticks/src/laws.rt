ghost use Rattle.ticks.specs.Laws.{StampsShowTheirMoments, StampsRise, StampsAreShort};

/// A law: the year, month, day, hour, minute, second and seven decimals of each stamp are those of its moment.
pub fn stamps_show_their_moments()
    ensures { StampsShowTheirMoments }
{}

/// A law: stamps of rising moments rise in the order of bytes.
pub fn stamps_rise()
    ensures { StampsRise }
{}

/// A law: each stamp has 28 bytes, all of ASCII.
pub fn stamps_are_short()
    ensures { StampsAreShort }
{}
