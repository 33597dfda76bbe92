// The head of a catalog page.
ghost use Rattle.std.specs.Prelude.{◌≡◌};

use pkg_meta::Ticks;

/// The last commit of a page, and how many items the page has.
#[derive(Clone, Copy)]
pub struct PageHead {
    pub number: u32,
    pub stamp: Ticks,
    pub count: u32,
}

/// The stamp of no commits, 0001-01-01T00:00:00.
pub fn first_moment() -> Ticks
    ensures { result ≡ 0 }
{
    Ticks::of(0).unwrap()
}
