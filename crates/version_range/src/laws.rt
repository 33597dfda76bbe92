// Laws about the definitions, each the contract of a function that does nothing.
ghost use Rattle.version_range.specs.Printed.{PrintedReadsBack, HasOneRange, PrintedIsBare};
ghost use Rattle.version_range.specs.Refusals.{HasOneReason, WorkedRefusals};

/// The printed form of a range reads back as the range.
pub fn printed_reads_back()
    ensures { PrintedReadsBack }
{}

/// A text has one range at most. So different ranges have different printed forms.
pub fn has_one_range()
    ensures { HasOneRange }
{}

/// A printed form is ASCII, and needs no escape in JSON.
pub fn printed_is_bare()
    ensures { PrintedIsBare }
{}

/// A text is refused for one reason at most, beside Memory, and for none where it spells a range.
pub fn has_one_reason()
    ensures { HasOneReason }
{}

/// A text for each refusal, as `[a,2.0]` for BadBound(1).
pub fn worked_refusals()
    ensures { WorkedRefusals }
{}
