// The status that a program ends with.

/// The number of the status that a program ends with.
#[derive(Clone, Copy, Debug, PartialEq, Eq)]
pub struct Status {
    pub number: u8,
}
