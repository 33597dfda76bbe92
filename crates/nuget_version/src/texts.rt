// Steps of printing and of looking into texts.
ghost use Rattle.std.specs.Prelude.{◌≡◌, ◌<◌, ◌==◌, ◌++◌, OnOk, string_bytes};
ghost use Rattle.std.specs.List.{list_any};
ghost use Rattle.nuget_version.specs.Parts.{marked, numbers_of};

use std::alloc::AllocError;

// Appends the numbers joined by dots, the fourth where it isn't 0.
pub(crate) fn push_numbers(
    out: &mut String,
    major: u32,
    minor: u32,
    patch: u32,
    revision: u32,
) -> Result<(), AllocError>
    ensures { OnOk result (string_bytes out.new ≡ string_bytes out.old ++ numbers_of major minor patch revision) }
{
    if revision == 0 {
        write!(out, "{major}.{minor}.{patch}")
    } else {
        write!(out, "{major}.{minor}.{patch}.{revision}")
    }
}

// Appends a text behind its mark, or nothing where it is empty.
pub(crate) fn push_marked(out: &mut String, mark: char, text: &str) -> Result<(), AllocError>
    requires { mark < 128 }
    ensures { OnOk result (string_bytes out.new ≡ string_bytes out.old ++ marked mark text.now) }
{
    if !text.is_empty() {
        out.push(mark)?;
        out.push_str(text)?;
    }
    Ok(())
}

pub(crate) fn has_dot(text: &[u8]) -> bool
    ensures { result ≡ list_any (λ b. b == 46) text.now }
{
    text.iter().any(|b| *b == b'.')
}
