//! What the bytes of declarations and interests are made of.

/// The id of an INTEREST, in its header (Zenoh protocol 1.0, "INTEREST").
pub const INTEREST: u8 = 0x19;

pub(crate) const U_KEYEXPR: u8 = 0x01;

pub(crate) const D_SUBSCRIBER: u8 = 0x02;

pub(crate) const U_SUBSCRIBER: u8 = 0x03;

pub(crate) const D_QUERYABLE: u8 = 0x04;

pub(crate) const U_QUERYABLE: u8 = 0x05;

pub(crate) const D_TOKEN: u8 = 0x06;

pub(crate) const U_TOKEN: u8 = 0x07;

pub(crate) const D_FINAL: u8 = 0x1A;

/// N, in a header and in the options of an interest: the key has a suffix.
pub(crate) const NAMED: u8 = 0x20;
/// M, in both: the sender declared the key's scope.
pub(crate) const MAPPING: u8 = 0x40;

/// Of DECLARE: an interest follows.
pub(crate) const ANSWERS: u8 = 0x20;
/// Of INTEREST: what is declared now is wanted.
pub(crate) const CURRENT: u8 = 0x20;
/// Of INTEREST: what is declared later is wanted.
pub(crate) const FUTURE: u8 = 0x40;

/// Of the options: how many values the four kinds make, a key follows, and what is told is to be aggregated.
pub(crate) const KINDS: u8 = 16;

pub(crate) const RESTRICTED: u8 = 0x10;

pub(crate) const AGGREGATE: u8 = 0x80;

/// The id of the extension of a network message that has its quality of service.
pub const QOS: u8 = 1;
/// The id of the extension that has its timestamp.
pub const TIMESTAMP: u8 = 2;
/// The id of the extension that has a node id, of all network messages but a RESPONSE.
pub const NODE_ID: u8 = 3;
/// What a subscriber or a queryable says of itself.
pub(crate) const INFO: u8 = 1;
/// The key of an undeclaration.
pub(crate) const UNDECLARED_KEY: u8 = 15;

/// The info of a complete queryable.
pub(crate) const COMPLETE: u64 = 1;

/// The most bytes of a text that is declared.
pub(crate) const MOST_TEXT: usize = 2048;
