// Laws about the definitions, each the contract of a function that does nothing.
ghost use Rattle.nuget_version.specs.Forms.{FormsFit, KeysAreNames};
ghost use Rattle.nuget_version.specs.Precedence.{IsTotal, TiesByKey};
ghost use Rattle.nuget_version.specs.ReadBack.{HasOneValue, PrintedReadBack};
ghost use Rattle.nuget_version.specs.Refusals.{HasOneAnswer};

/// Each printed form of a version has at most 64 bytes.
pub fn forms_fit()
    ensures { FormsFit }
{}

/// A key isn't empty, and has only digits, lower-case letters, `-` and `.`, so it can stand in a path.
pub fn keys_are_names()
    ensures { KeysAreNames }
{}

/// Out of memory apart, a text has one refusal at most, and none where it spells a version.
pub fn has_one_answer()
    ensures { HasOneAnswer }
{}

/// A text has one value at most.
pub fn has_one_value()
    ensures { HasOneValue }
{}

/// The full form reads back as the version, the normal form as the version without its metadata,
/// and the key as that with its labels in lower case.
pub fn printed_read_back()
    ensures { PrintedReadBack }
{}

/// Precedence is a total order.
pub fn precedence_is_total()
    ensures { IsTotal }
{}

/// Two versions tie exactly where their keys are equal.
pub fn ties_by_key()
    ensures { TiesByKey }
{}
