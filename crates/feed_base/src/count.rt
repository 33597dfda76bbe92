// Counts in 64 bits that stay at their greatest number.
ghost use Rattle.std.specs.Prelude.{◌≡◌, ◌≤◌};
ghost use Rattle.feed_base.specs.Counts.{raised};

/// One more, where there is one.
pub fn next_count(count: u64) -> u64
    ensures next { result ≡ raised count }
    ensures later { count ≤ result }
{
    count.saturating_add(1)
}
