// What holds of all states' names and documents.
ghost use Rattle.std.specs.Prelude.{◌≡◌};
ghost use Rattle.hive_state.specs.First.{first_state, first_state_text};
ghost use Rattle.hive_state.specs.Laws.{NamesDiffer, OwnedByNone, StatesDiffer, TellsNoCursor};
ghost use Rattle.hive_state.specs.State.{state_text};

/// The state of an id after its first publish, byte for byte. It does nothing.
pub fn first_document()
    ensures { state_text first_state ≡ first_state_text }
{}

/// Different states have different documents. It does nothing.
pub fn different_states()
    ensures { StatesDiffer }
{}

/// The states of different ids have different names, and such a name is neither that of a document nor that of the
/// cursor. It does nothing.
pub fn different_names()
    ensures states { NamesDiffer }
    ensures documents { OwnedByNone }
    ensures cursor { TellsNoCursor }
{}
