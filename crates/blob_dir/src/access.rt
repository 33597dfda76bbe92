// What may be done in a folder.

/// What a store may do in its folder.
#[derive(Clone, Copy, Debug, PartialEq, Eq)]
pub enum Access {
    /// Read, put and delete: nobody else does meanwhile.
    Granted,
    /// Nothing: the folder wasn't there, and isn't to be made. So nothing is read there.
    Absent,
    /// Nothing: another program has it, or the system refuses it.
    Denied,
}
