//! The result of a lookup in one folder.

/// The result of a lookup in one folder.
#[derive(Drop)]
pub enum Looked {
    /// The file's bytes, at most `LIMIT`.
    Found(Vec<u8>),
    /// A file of more than `LIMIT` bytes.
    TooLong,
    /// No file of that name.
    Absent,
    /// The device failed.
    Failed,
}
