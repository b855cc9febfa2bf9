//! How lines are written.

/// How the lines of a log are written.
#[derive(Clone, Copy, Debug, PartialEq, Eq)]
pub enum Form {
    /// The moment in milliseconds since 1970, to whom, and what was done.
    Text,
    /// One JSON object (RFC 8259), with a time and a level under `time` and `level`.
    Json,
}
