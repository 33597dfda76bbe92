// The first line of a record.
ghost use Rattle.std.specs.Prelude.{◌≡◌, ◌<◌, ◌^◌, ◌↔◌, ℕ, IsTrue, IfOk, IfSome, decimal};
ghost use Rattle.admin_wire.specs.Cuts.{IsHeader, spaced};

use crate::cut::{cut, text_or_empty};
use pkg_meta::NoMemory;
use std::alloc::{AllocError, Global};

/// The lengths of a record's parts.
#[derive(Clone, Copy)]
pub(crate) struct Lengths {
    pub(crate) meta: u32,
    pub(crate) nuspec: u32,
    pub(crate) nupkg: u32,
}

// What is read where a number was written; other texts may be read too.
fn number(digits: &[u8]) -> Option<u32>
    ensures { (n : ℕ) → n < 2 ^ 32 → digits.now ≡ decimal n → result ≡ Some n }
{
    text_or_empty(digits).parse::<u32>().ok()
}

// What is read where three numbers were written; other texts may be read too.
fn three_numbers(line: &[u8]) -> Option<Lengths>
    ensures { (l : Lengths) → l.meta < 2 ^ 32 → l.nuspec < 2 ^ 32 → l.nupkg < 2 ^ 32
        → line.now ≡ spaced l.meta l.nuspec l.nupkg → result ≡ Some l }
{
    let (first, others) = cut(line, b' ')?;
    let (second, third) = cut(others, b' ')?;
    let meta = number(first)?;
    let nuspec = number(second)?;
    let nupkg = number(third)?;
    Some(Lengths {
        meta,
        nuspec,
        nupkg,
    })
}

// Whether the line is these numbers with single spaces.
fn is_spaced(alloc: Global, line: &[u8], lens: Lengths) -> Result<bool, AllocError>
    ensures { IfOk result (λ is. IsTrue is ↔ (line.now ≡ spaced lens.meta lens.nuspec lens.nupkg)) }
{
    let (meta, nuspec, nupkg) = (lens.meta, lens.nuspec, lens.nupkg);
    let text = format!(in alloc; "{meta} {nuspec} {nupkg}")?;
    Ok(text.as_bytes() == line)
}

/// The lengths that the line says.
pub(crate) fn read_lengths(alloc: Global, line: &[u8]) -> Result<Option<Lengths>, NoMemory>
    ensures found { IfOk result (λ o. IfSome o (λ lens. IsHeader line.now lens)) }
    ensures exact { IfOk result (λ o. (lens : Lengths) → IsHeader line.now lens → o ≡ Some lens) }
{
    let Some(lens) = three_numbers(line) else {
        return Ok(None);
    };
    let is_whole = is_spaced(alloc, line, lens)?;
    let longest = lens.meta.max(lens.nuspec).max(lens.nupkg);
    Ok((is_whole && longest < 100_000_000).then_some(lens))
}
