// Printing and copying the ends of a range.
ghost use Rattle.std.specs.Prelude.{◌≡◌, ◌∷◌, ◌++◌, [], string_bytes, IfOk};
ghost use Rattle.version_range.specs.Grammar.{opening, closing};
ghost use Rattle.version_range.specs.Printed.{end_text};

use nuget_version::{NoMemory, Text, Version};
use std::alloc::{AllocError, Global};

pub fn copy_end(alloc: Global, end: &Option<Version>) -> Result<Option<Version>, NoMemory>
    ensures { IfOk result (λ copy. copy ≡ end.now) }
{
    match end {
        None => Ok(None),
        Some(version) => {
            let version = version.copy(alloc)?;
            Ok(Some(version))
        }
    }
}

// The full form, and nothing for an absent end.
pub fn print_end(alloc: Global, end: &Option<Version>) -> Result<Text, NoMemory>
    ensures { IfOk result (λ t. t ≡ end_text end.now) }
{
    match end {
        None => Text::copy_of(alloc, ""),
        Some(version) => version.full(alloc),
    }
}

pub fn print_range(
    alloc: Global,
    low_in: bool,
    low: &str,
    high: &str,
    high_in: bool,
) -> Result<String, AllocError>
    ensures { IfOk result (λ s. string_bytes s
        ≡ opening low_in ∷ (low.now ++ (44 ∷ 32 ∷ (high.now ++ closing high_in ∷ [])))) }
{
    let open = opening(low_in);
    let close = closing(high_in);
    format!(in alloc; "{open}{low}, {high}{close}")
}

fn opening(square: bool) -> &'static str
    ensures { result.now ≡ opening square ∷ [] }
{
    if square { "[" } else { "(" }
}

fn closing(square: bool) -> &'static str
    ensures { result.now ≡ closing square ∷ [] }
{
    if square { "]" } else { ")" }
}
