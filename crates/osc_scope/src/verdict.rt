//! What a scope says of a request.

/// What a scope says of a request: whether it may go on, or why it is refused.
#[derive(Clone, Copy, Debug, PartialEq, Eq)]
pub enum Verdict {
    /// The scope has the method on the path.
    Granted,
    /// The scope has the path, but not with this method, or the method is unknown: 4.05 Method Not Allowed.
    NoMethod,
    /// The scope does not have the path, or there is none: 4.03 Forbidden.
    NoPath,
}
