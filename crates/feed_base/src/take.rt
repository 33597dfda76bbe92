// All that a source has.
ghost use Rattle.std.specs.Prelude.{◌≡◌, ◌<◌, ◌≤◌, ◌+◌, ◌-◌, [], Some, drop, min, length, IfOk, OnOk, IfSome, IsErrOf};
ghost use Rattle.feed_base.specs.Counts.{CountsFault};
ghost use Rattle.feed_base.specs.Source.{TakesUpTo};
ghost use Rattle.feed_base.specs.declared.take.TakeErr.TheVariants.{ReadFault, Memory};

use crate::{Bytes, Failed, Source};
use std::alloc::{AllocError, Global};
use std::fmt;

/// Why not all bytes were taken.
#[derive(Clone, Copy, Debug, PartialEq, Eq)]
pub enum TakeErr {
    /// A read failed.
    ReadFault,
    /// As many bytes as allowed were taken, and one more came.
    TooLong,
    /// Out of memory.
    Memory,
}

impl fmt::Display for TakeErr {
    fn fmt<W: fmt::Write>(&self, f: &mut fmt::Formatter<W>) -> fmt::Result {
        f.write_str(match self {
            TakeErr::ReadFault => "a read failed",
            TakeErr::TooLong => "there are more bytes than allowed",
            TakeErr::Memory => "out of memory",
        })
    }
}

impl From<Failed> for TakeErr {
    ghost from_gives = { λ _ e. e ≡ ReadFault };

    fn from(_: Failed) -> Self {
        TakeErr::ReadFault
    }
}

impl From<AllocError> for TakeErr {
    ghost from_gives = { λ _ e. e ≡ Memory };

    fn from(_: AllocError) -> Self {
        TakeErr::Memory
    }
}

// How many bytes are asked of a source at once, at most.
const PIECE: usize = 4096;

// How many bytes to ask for next: at least one, and at most one above the limit.
fn next_piece(limit: u64, taken: usize) -> usize
    requires { taken ≤ limit }
    ensures { result ≡ min (limit - taken) 4095 + 1 }
{
    let room = limit - taken as u64;
    room.min(PIECE as u64 - 1) as usize + 1
}

/// Takes all bytes up to the end, of which there may be at most `limit`.
pub fn read_all<S: Source>(alloc: Global, source: &mut S, limit: u64) -> Result<Bytes, TakeErr>
    // All that was left, and nothing is left behind.
    ensures all { IfOk result (λ taken. IfSome (S.left source.old) (λ bytes. taken ≡ bytes)) }
    ensures ended { OnOk result (IfSome (S.left source.old) (λ bytes. S.left source.new ≡ Some [])) }
    ensures within { IfOk result (λ taken. length taken ≤ limit) }

    // The limit and one byte more were taken.
    ensures too_long { IsErrOf result TakeErr.TooLong → IfSome (S.left source.old) (λ bytes. (limit < length bytes) × (S.left source.new ≡ Some (drop (limit + 1) bytes))) }

    // Whatever it answers, it took no more than one byte above the limit.
    ensures rest { TakesUpTo (limit + 1) (S.left source.old) (S.left source.new) }

    // At most the last read failed, and then it answers so.
    ensures counted { CountsFault (S.faults source.old) (S.faults source.new) (IsErrOf result TakeErr.ReadFault) }
{
    let mut taken = Vec::new(alloc);
    let mut buffer = [0u8; PIECE];
    'pieces: loop {
        let (piece, _) = buffer.split_at_mut(next_piece(limit, taken.len()));
        let n = source.read(piece)?;
        if n == 0 {
            return Ok(Bytes::of(taken));
        }
        if n as u64 > limit - taken.len() as u64 {
            return Err(TakeErr::TooLong);
        }
        taken.extend_from_slice(&piece[..n])?;
    }
}
