//! What the bytes of network messages are made of.

pub(crate) const PUSH: u8 = 0x1D;

/// The id of a REQUEST, in its header (Zenoh protocol 1.0, "REQUEST").
pub const REQUEST: u8 = 0x1C;

/// The id of a RESPONSE, in its header (Zenoh protocol 1.0, "RESPONSE").
pub const RESPONSE: u8 = 0x1B;

pub(crate) const RESPONSE_FINAL: u8 = 0x1A;

/// The extension of a RESPONSE that names who answers, as bytes.
pub(crate) const RESPONDER: u8 = 3;
/// Of a REQUEST.
pub(crate) const TARGET: u8 = 4;

pub(crate) const BUDGET: u8 = 5;

pub(crate) const TIMEOUT: u8 = 6;

/// The root of the tree along which a message goes between routers.
pub(crate) const TREE: u8 = 7;

/// The bits, among the marks, of the extensions that are passed on.
pub(crate) const QOS_MARK: u8 = 0x02;

pub(crate) const TIMESTAMP_MARK: u8 = 0x04;

pub(crate) const RESPONDER_MARK: u8 = 0x08;

pub(crate) const TARGET_MARK: u8 = 0x10;

pub(crate) const BUDGET_MARK: u8 = 0x20;

pub(crate) const TIMEOUT_MARK: u8 = 0x40;

/// The numbers of targets; the best matching one is 0, or absent.
pub(crate) const BEST: u64 = 0;

pub(crate) const ALL: u64 = 1;

pub(crate) const COMPLETE: u64 = 2;
