// How a link ended.

/// Why no further request of a link is answered.
#[derive(Clone, Copy, Debug, PartialEq, Eq)]
pub enum End {
    /// The input ended at a request's start, or the last request was answered.
    ByClient,
    /// What came is refused with this status: 400, 413, 415, 431 or 501.
    AfterError(u16),
    /// The service ends, and so answered.
    Stopped,
    ReadFault,
    WriteFault,
    /// Out of memory, as a request was read or its answer written.
    Memory,
}
