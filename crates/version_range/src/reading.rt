// Reading a range. The places that the functions are given are those of what they read.
ghost use Rattle.std.specs.Prelude.{◌≡◌, ◌<◌, ◌≤◌, ◌+◌, ◌^◌, ◌&&◌, length, IfOk, IfErr, IsFalse, is_some};
ghost use Rattle.std.specs.List.{position_from};
ghost use Rattle.nuget_version.specs.Grammar.{Spells};
ghost use Rattle.version_range.specs.Bytes.{is_comma, is_round};
ghost use Rattle.version_range.specs.Cuts.{closed, parted, trimmed};
ghost use Rattle.version_range.specs.Form.{form, core_form, closed_form, inner_form, single_unless, double_unless, blank, bare, single, double, piece, piece_at};
ghost use Rattle.version_range.specs.Grammar.{HasEnds};
ghost use Rattle.version_range.specs.Order as order;
ghost use Rattle.version_range.specs.Steps.{IsEnd, IsBadBound, IsBadEnd, IsReadAs, IsRefusedAs, bound_error_of};

use crate::cuts::{close, count_lead, find_byte, find_round, open, part, trim};
use crate::error::RangeErr;
use crate::order::are_ordered;
use crate::range::VersionRange;
use nuget_version::{Version, VersionErr};
use std::alloc::Global;

pub fn read_range(alloc: Global, text: &str) -> Result<VersionRange, RangeErr>
    ensures ok { IfOk result (IsReadAs (form text.now)) }
    ensures refused { IfErr result (IsRefusedAs (form text.now)) }
{
    match find_byte(text, b'*') {
        Some(at) => Err(RangeErr::Floating(at as u64)),
        None => read_core(alloc, trim(text), count_lead(text)),
    }
}

// A text without spaces at its ends.
fn read_core(alloc: Global, core: &str, at: usize) -> Result<VersionRange, RangeErr>
    requires { at + length core.now < 2 ^ 64 }
    ensures ok { IfOk result (IsReadAs (core_form at core.now)) }
    ensures refused { IfErr result (IsRefusedAs (core_form at core.now)) }
{
    if core.is_empty() {
        return Ok(any());
    }
    match open(core) {
        None => read_least(alloc, core, at),
        Some((low_in, rest)) => read_closed(alloc, core, at, low_in, rest),
    }
}

fn any() -> VersionRange
    ensures { IsReadAs blank result }
{
    VersionRange {
        low: None,
        low_in: false,
        high: None,
        high_in: false,
    }
}

// A text without brackets.
fn read_least(alloc: Global, core: &str, at: usize) -> Result<VersionRange, RangeErr>
    ensures ok { IfOk result (IsReadAs (bare (piece_at at core.now))) }
    ensures refused { IfErr result (IsRefusedAs (bare (piece_at at core.now))) }
{
    let low = read_version(alloc, core, at)?;
    Ok(VersionRange {
        low: Some(low),
        low_in: true,
        high: None,
        high_in: false,
    })
}

// A text with an opening bracket, and what is behind it.
fn read_closed(
    alloc: Global,
    core: &str,
    at: usize,
    low_in: bool,
    rest: &str,
) -> Result<VersionRange, RangeErr>
    requires place { at + length core.now < 2 ^ 64 }
    requires shorter { length rest.now + 1 ≡ length core.now }
    ensures ok { IfOk result (IsReadAs (closed_form at core.now low_in (closed rest.now))) }
    ensures refused { IfErr result (IsRefusedAs (closed_form at core.now low_in (closed rest.now))) }
{
    match close(rest) {
        None => Err(RangeErr::BadByte((at + core.len() - 1) as u64)),
        Some((high_in, inner)) => read_inner(alloc, core, at, low_in, inner, high_in),
    }
}

// A text in brackets, and what is between them.
fn read_inner(
    alloc: Global,
    core: &str,
    at: usize,
    low_in: bool,
    inner: &str,
    high_in: bool,
) -> Result<VersionRange, RangeErr>
    requires place { at + length core.now < 2 ^ 64 }
    requires shorter { length inner.now + 2 ≡ length core.now }
    ensures ok { IfOk result (IsReadAs (inner_form at core.now low_in (parted inner.now) inner.now high_in)) }
    ensures refused { IfErr result (IsRefusedAs (inner_form at core.now low_in (parted inner.now) inner.now high_in)) }
{
    match part(inner) {
        None => read_single(alloc, core, at, inner),
        Some((left, right)) => read_double(alloc, at, low_in, left, right, high_in),
    }
}

// One piece in brackets.
fn read_single(alloc: Global, core: &str, at: usize, inner: &str) -> Result<VersionRange, RangeErr>
    requires place { at + length core.now < 2 ^ 64 }
    requires shorter { length inner.now + 2 ≡ length core.now }
    ensures ok { IfOk result (IsReadAs (single_unless (position_from is_round 0 core.now) at inner.now)) }
    ensures refused { IfErr result (IsRefusedAs (single_unless (position_from is_round 0 core.now) at inner.now)) }
{
    match find_round(core) {
        Some(place) => Err(RangeErr::BadByte((at + place) as u64)),
        None => read_exact(alloc, trim(inner), at + 1 + count_lead(inner)),
    }
}

// One version, that alone.
fn read_exact(alloc: Global, core: &str, at: usize) -> Result<VersionRange, RangeErr>
    ensures ok { IfOk result (IsReadAs (single (piece_at at core.now))) }
    ensures refused { IfErr result (IsRefusedAs (single (piece_at at core.now))) }
{
    let low = read_version(alloc, core, at)?;
    let high = low.copy(alloc)?;
    Ok(VersionRange {
        low: Some(low),
        low_in: true,
        high: Some(high),
        high_in: true,
    })
}

// Two pieces in brackets. The place is that of the opening one.
fn read_double(
    alloc: Global,
    at: usize,
    low_in: bool,
    left: &str,
    right: &str,
    high_in: bool,
) -> Result<VersionRange, RangeErr>
    requires { at + length left.now + length right.now + 2 < 2 ^ 64 }
    ensures ok { IfOk result (IsReadAs (double_unless (position_from is_comma 0 right.now) low_in at left.now (at + 1 + length left.now + 1) right.now high_in)) }
    ensures refused { IfErr result (IsRefusedAs (double_unless (position_from is_comma 0 right.now) low_in at left.now (at + 1 + length left.now + 1) right.now high_in)) }
{
    let right_at = at + 1 + left.len() + 1;
    match find_byte(right, b',') {
        Some(place) => Err(RangeErr::BadByte((right_at + place) as u64)),
        None => read_ends(alloc, low_in, left, at + 1, right, right_at, high_in),
    }
}

// Two ends, each with the place of its text.
fn read_ends(
    alloc: Global,
    low_in: bool,
    left: &str,
    left_at: usize,
    right: &str,
    right_at: usize,
    high_in: bool,
) -> Result<VersionRange, RangeErr>
    requires left_place { left_at + length left.now < 2 ^ 64 }
    requires right_place { right_at + length right.now < 2 ^ 64 }
    ensures ok { IfOk result (IsReadAs (double low_in (piece left_at left.now) (piece right_at right.now) high_in)) }
    ensures refused { IfErr result (IsRefusedAs (double low_in (piece left_at left.now) (piece right_at right.now) high_in)) }
{
    let low = read_end(alloc, left, left_at)?;
    let high = read_end(alloc, right, right_at)?;
    make_range(low, low_in, high, high_in)
}

// The range of two ends, of which an absent one isn't included.
fn make_range(
    low: Option<Version>,
    low_square: bool,
    high: Option<Version>,
    high_square: bool,
) -> Result<VersionRange, RangeErr>
    ensures ok { IfOk result (λ r. HasEnds r low (low_square && is_some low) high (high_square && is_some high)) }
    ensures inverted { IfErr result (λ e. (e ≡ RangeErr.Inverted)
        × IsFalse (order.are_ordered low (low_square && is_some low) high (high_square && is_some high))) }
{
    let low_in = low_square && low.is_some();
    let high_in = high_square && high.is_some();
    if are_ordered(&low, low_in, &high, high_in) {
        Ok(VersionRange {
            low,
            low_in,
            high,
            high_in,
        })
    } else {
        Err(RangeErr::Inverted)
    }
}

// An end with spaces around it, which is absent where there is nothing else.
fn read_end(alloc: Global, text: &str, at: usize) -> Result<Option<Version>, RangeErr>
    requires { at + length text.now < 2 ^ 64 }
    ensures ok { IfOk result (IsEnd (trimmed text.now)) }
    ensures refused { IfErr result (IsBadEnd (piece at text.now)) }
{
    let core = trim(text);
    if core.is_empty() {
        return Ok(None);
    }
    let end = read_version(alloc, core, at + count_lead(text))?;
    Ok(Some(end))
}

fn read_version(alloc: Global, core: &str, at: usize) -> Result<Version, RangeErr>
    ensures ok { IfOk result (Spells core.now) }
    ensures refused { IfErr result (IsBadBound (piece_at at core.now)) }
{
    match Version::parse(alloc, core) {
        Ok(version) => Ok(version),
        Err(error) => Err(bound_error(error, at)),
    }
}

fn bound_error(error: VersionErr, at: usize) -> RangeErr
    ensures { result ≡ bound_error_of error at }
{
    match error {
        VersionErr::Memory => RangeErr::Memory,
        _ => RangeErr::BadBound(at as u64),
    }
}
