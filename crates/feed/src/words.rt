// The words that the program is given.
ghost use Rattle.std.specs.Prelude.{◌≡◌, [], drop, string_bytes, IfOk};
ghost use Rattle.feed.specs.Words.{IsSplit};

use feed_base::NoMemory;
use std::alloc::Global;
use std::env::{self, Env};
use std::io::ErrorKind;

/// The folder, and the words of the command.
#[derive(Drop)]
pub struct Words {
    pub folder: String,
    pub command: Vec<String>,
}

fn no_words(alloc: Global) -> Words
    ensures folder { string_bytes result.folder ≡ [] }
    ensures command { result.command.items ≡ [] }
{
    Words {
        folder: String::new(alloc),
        command: Vec::new(alloc),
    }
}

// The folder stands behind the program's name, and the command behind it. Without a folder, or with an empty one, there
// are no words.
fn split_words(alloc: Global, mut all: Vec<String>) -> Result<Words, NoMemory>
    ensures { IfOk result (λ words. IsSplit all.items (string_bytes words.folder) words.command.items) }
{
    if all.len() < 2 {
        return Ok(no_words(alloc));
    }
    let command = all.split_off(2)?;
    match all.pop() {
        Some(folder) if !folder.is_empty() => Ok(Words { folder, command }),
        _ => Ok(no_words(alloc)),
    }
}

/// The words that the program was given. Where one isn't UTF-8 there are none.
pub fn given_words<R: Env + AllocGlobal>(rt: &R) -> Result<Words, NoMemory> {
    let alloc = rt.alloc();
    let mut all = Vec::new(alloc);
    match env::args(rt) {
        Ok(given) => {
            for word in given {
                all.push(word)?;
            }
        }
        Err(error) if error.kind() == ErrorKind::OutOfMemory => return Err(NoMemory),
        Err(_) => (),
    }
    split_words(alloc, all)
}
