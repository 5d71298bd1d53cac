//! Where a body stands.

/// The kind of message that a body stands in.
#[derive(Clone, Copy, Debug, PartialEq, Eq)]
pub enum Place {
    /// PUT or DEL.
    Push,
    /// QUERY.
    Request,
    /// REPLY or ERR.
    Response,
}
