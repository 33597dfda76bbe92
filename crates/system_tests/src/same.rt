// The comparison of most tests, proved once.
use std::fmt::{Debug, Display};
use std::process::Abort;

// Asserts that both are the same, and says of what.
pub fn same<T: PartialEq + Debug + Copy, D: Display + Copy>(
    rt: &impl Abort,
    got: T,
    want: T,
    of: D,
) {
    assert_eq!(rt; got, want, "of {of}");
}
