// What the program tells of itself.
ghost use Rattle.std.specs.Prelude.{◌≡◌, ◌⊎◌, ◌++◌, map, option_map, string_bytes};
ghost use Rattle.feed_base.specs.Counts.{HasRisen};
ghost use Rattle.feed.specs.Own.{own_text, text_for};

use feed_base::{Sink, Status};

const HELP: &str = "\
feed: a NuGet package feed in a folder\n\
\n\
feed <folder> init <base>              makes the empty catalog of a feed at this base address\n\
feed <folder> publish                  commits the packages that standard input holds\n\
feed <folder> unlist <id> <version>..  takes versions out of the listing, in one commit\n\
feed <folder> list <id> <version>..    puts versions into the listing again, in one commit\n\
feed <folder> delete <id> <version>..  deletes versions, in one commit\n\
feed <folder> job <hive>               brings the documents of a hive up to the last commit\n\
feed <folder> cursor <hive>            tells the number of the commit up to which they are\n\
feed <folder> get <path>               writes the document of this path\n\
feed --help                            writes this text\n\
feed --version                         writes the version, and that of the kit\n\
\n\
A hive is plain, semver2, content or auto. Every command but init takes --base=<base>\n\
or --base <base> behind its word: a catalog of another base address is then refused.\n\
\n\
status 0  done\n\
status 2  the words have no meaning\n\
status 3  refused, by the rule that the line names\n\
status 4  a call of the folder's files failed\n\
status 5  the input or the output failed\n\
status 6  a file is damaged or absent\n\
status 7  the input is too long\n\
status 8  out of memory\n\
";

const VERSION: &str = "feed, unreleased\nrattle-kit-13f logic dac8208d650f15bf\n";

// What is told for a word.
fn text_for(word: &str) -> Option<&'static str>
    ensures { option_map (λ t. t.now) result ≡ text_for word.now }
{
    match word {
        "--help" => Some(HELP),
        "--version" => Some(VERSION),
        _ => None,
    }
}

/// What is told for a word that stands alone: `--help` or `--version`.
pub fn own_text(word: &str, command: &[String]) -> Option<&'static str>
    ensures { option_map (λ t. t.now) result ≡ own_text word.now (map string_bytes command.now) }
{
    match command {
        [] => text_for(word),
        _ => None,
    }
}

/// Writes the text. The status is 0, or 5 where the write fails.
pub fn tell<O: Sink>(output: &mut O, text: &str) -> Status
    ensures { ((result.number ≡ 0) × (O.written output.new ≡ option_map (λ out. out ++ text.now) (O.written output.old)))
        ⊎ ((result.number ≡ 5) × HasRisen (O.faults output.old) (O.faults output.new)) }
{
    match output.write(text.as_bytes()) {
        Ok(()) => Status { number: 0 },
        Err(_) => Status { number: 5 },
    }
}
