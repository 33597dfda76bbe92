// What holds of each call of the program, whatever its command. The functions do nothing.
ghost use Rattle.std.specs.Prelude.{◌≡◌, ◌⊎◌, ◌<◌, length, None, Some, IfSome};
ghost use Rattle.admin_wire.specs.declared.area.AreaName.{AreaName};
ghost use Rattle.feed_app.specs.Commands.{Command, command_of};
ghost use Rattle.feed_app.specs.Does.{meaning, reach_of};
ghost use Rattle.feed_app.specs.Frame.{HasLost, KeepsAreas, KeepsValue, Touches, most_input};
ghost use Rattle.feed_app.specs.Outside.{AreaRose, Rose, area_of, bounds, input_of, output_of};
ghost use Rattle.feed_app.specs.Runs.{CanBeDone, ForRuns, IsGood, IsQuiet, IsTouchedBy};

use blob_store::Blobs;
use feed_base::{Clock, Sink, Source};

/// Status 2 comes for words without a meaning alone; these touch no store, and get it unless the writing stops.
pub fn answers_usage<B: Blobs, I: Source, O: Sink, C: Clock>()
    ensures only { ForRuns (bounds B.Blobs I.Source O.Sink C.Clock) (λ words before status after. status ≡ 2 → command_of words ≡ None) }
    ensures always { ForRuns (bounds B.Blobs I.Source O.Sink C.Clock) (λ words before status after. command_of words ≡ None
        → (status ≡ 2) ⊎ ((status ≡ 5) ⊎ (status ≡ 8))) }
    ensures untouched { ForRuns (bounds B.Blobs I.Source O.Sink C.Clock) (λ words before status after. command_of words ≡ None
        → after.stores ≡ before.stores) }
{}

/// Status 3 comes only for words with a meaning, 4 only where the count of an area that the command touches rose, 5 only
/// where that of the input or the output did, 6 only where the command touches an area that hasn't got a blob
/// as it is to be: the catalog's spells no catalog, and the blob isn't as an opening needs it, isn't held or is a leaf; or it has
/// nothing that a job would read; or the hive's has no cursor or no state;
/// and 7 only for a command that reads the input, where that is too long.
pub fn explains_statuses<B: Blobs, I: Source, O: Sink, C: Clock>()
    ensures refused { ForRuns (bounds B.Blobs I.Source O.Sink C.Clock) (λ words before status after. status ≡ 3
        → (command : Command) × (command_of words ≡ Some command)) }
    ensures store { let b = bounds B.Blobs I.Source O.Sink C.Clock in ForRuns b (λ words before status after. status ≡ 4
        → (name : AreaName) × IsTouchedBy b.blobs words name × AreaRose b.blobs (area_of before.stores name) (area_of after.stores name)) }
    ensures stream { let b = bounds B.Blobs I.Source O.Sink C.Clock in ForRuns b (λ words before status after. status ≡ 5
        → Rose (input_of b.source before.input) (input_of b.source after.input)
        ⊎ Rose (output_of b.sink before.output) (output_of b.sink after.output)) }
    ensures damaged { let b = bounds B.Blobs I.Source O.Sink C.Clock in ForRuns b (λ words before status after. status ≡ 6
        → (command : Command) × (command_of words ≡ Some command) × HasLost b.blobs (meaning b.blobs command).reach before.stores after.stores) }
    ensures too_long { let b = bounds B.Blobs I.Source O.Sink C.Clock in ForRuns b (λ words before status after. status ≡ 7
        → (command : Command) × (command_of words ≡ Some command) × Touches (meaning b.blobs command).reach.input
        × IfSome (b.source.left before.input) (λ body. most_input < length body)) }
{}

/// A command leaves each area that isn't within its reach, and an input and a clock that it has no use for: the very same
/// values.
pub fn keeps_others<B: Blobs, I: Source, O: Sink, C: Clock>()
    ensures areas { let b = bounds B.Blobs I.Source O.Sink C.Clock in ForRuns b (λ words before status after. (command : Command)
        → command_of words ≡ Some command → KeepsAreas b.blobs (meaning b.blobs command).reach before.stores after.stores) }
    ensures streams { let b = bounds B.Blobs I.Source O.Sink C.Clock in ForRuns b (λ words before status after.
        KeepsValue (reach_of b.blobs (command_of words)).input before.input after.input
        × KeepsValue (reach_of b.blobs (command_of words)).clock before.clock after.clock) }
{}

/// A command that can be done, where no count of what it may touch rose, is done, or memory runs out.
pub fn completes<B: Blobs, I: Source, O: Sink, C: Clock>()
    ensures { let b = bounds B.Blobs I.Source O.Sink C.Clock in ForRuns b (λ words before status after. CanBeDone b words before
        → IsQuiet b words before after → IsGood status) }
{}
