// Readers, writers and clocks that fail where they are told to.
use crate::same::same;
use feed_base::{Clock, Failed, Sink, Source};
use std::cell::Cell;
use std::io::{ErrorKind, Read, Write};
use std::test::Fail;
use std::time::Duration;
use std::{io, time};
use system::{Reading, SystemClock, Writing, ticks_of_nanos};

// Gives two bytes, then fails once, then has ended.
#[derive(Drop)]
struct Stream {
    calls: u32,
}

impl Read for Stream {
    fn read(&mut self, buf: &mut [u8]) -> io::Result<usize> {
        self.calls = self.calls.saturating_add(1);
        match self.calls {
            1 => (&b"ab"[..]).read(buf),
            2 => Err(io::Error::from(ErrorKind::BrokenPipe)),
            _ => Ok(0),
        }
    }
}

// Takes one byte at a time, and of the third call on none.
#[derive(Drop)]
struct Narrow {
    taken: u32,
}

impl Write for Narrow {
    fn write(&mut self, buf: &[u8]) -> io::Result<usize> {
        if self.taken == 2 {
            return Err(io::Error::from(ErrorKind::BrokenPipe));
        }
        self.taken = self.taken.saturating_add(1);
        Ok(1.min(buf.len()))
    }

    fn flush(&mut self) -> io::Result<()> {
        Ok(())
    }
}

// A clock that can be read where it has a time.
#[derive(Drop)]
struct Hand {
    time: Cell<Option<Duration>>,
}

impl time::Clock for &Hand {
    fn monotonic(&self) -> io::Result<Duration> {
        self.since_1970()
    }

    fn since_1970(&self) -> io::Result<Duration> {
        match self.time.get() {
            Some(time) => Ok(time),
            None => Err(io::Error::from(ErrorKind::Unsupported)),
        }
    }
}

#[test]
fn reads_until_a_fault(rt: HostRuntime) {
    let mut source = Reading::new(Stream { calls: 0 });
    let mut buffer = [0u8; 4];
    same(&rt, source.read(&mut buffer), Ok(2), "the first read");
    same(&rt, &buffer[..2], b"ab".as_slice(), "its bytes");
    same(
        &rt,
        source.read(&mut buffer),
        Err(Failed),
        "the second read",
    );
    same(&rt, source.read(&mut buffer), Ok(0), "the third read");
}

#[test]
fn writes_until_a_fault(rt: HostRuntime) {
    let mut sink = Writing::new(Narrow { taken: 0 });
    same(&rt, sink.write(b"ab"), Ok(()), "two bytes");
    same(&rt, sink.write(b"c"), Err(Failed), "a third byte");
    same(&rt, sink.write(b""), Ok(()), "no byte");
}

// Nanoseconds since 1970, and the ticks of .NET's `DateTime`: 1970, 2000, the last moment of the year 9999, and what is
// after it.
const TICKS: [(u128, Option<u64>); 6] = [
    (0, Some(621_355_968_000_000_000)),
    (199, Some(621_355_968_000_000_001)),
    (946_684_800_000_000_000, Some(630_822_816_000_000_000)),
    (253_402_300_799_999_999_999, Some(3_155_378_975_999_999_999)),
    (253_402_300_800_000_000_000, None),
    (u128::MAX, None),
];

#[test]
fn counts_ticks_from_the_year_1(rt: HostRuntime) {
    for (nanos, want) in &TICKS {
        same(&rt, ticks_of_nanos(*nanos), *want, *nanos);
    }
}

#[test]
fn answers_its_last_moment_where_it_cannot_be_read(rt: HostRuntime) -> Result<(), Fail> {
    let hand = Hand {
        time: Cell::new(None),
    };
    let mut clock = SystemClock::new(&hand);
    same(&rt, clock.now(), 0, "no time yet");
    hand.time.set(Some(Duration::from_secs(946_684_800)));
    same(&rt, clock.now(), 630_822_816_000_000_000, "the year 2000");
    hand.time.set(None);
    same(
        &rt,
        clock.now(),
        630_822_816_000_000_000,
        "no time any more",
    );
    hand.time.set(Some(Duration::from_secs(253_402_300_800)));
    same(
        &rt,
        clock.now(),
        3_155_378_975_999_999_999,
        "a time beyond the last",
    );
    Ok(())
}
