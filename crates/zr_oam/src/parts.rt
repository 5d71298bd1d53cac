//! What the bytes of OAM messages are made of.

/// The id of an OAM message, in its header (Zenoh protocol 1.0, "OAM").
pub const OAM: u8 = 0x1F;
/// The form of the content, in a header.
pub(crate) const ENCODING: u8 = 0x60;
/// The header of the project's own messages: a content of bytes, and no extension.
pub(crate) const OWN: u8 = 0x5F;

/// The OAM id of link records.
pub(crate) const RECORD: u16 = 0x5A01;
/// The OAM id of link records with weights.
pub(crate) const WEIGHTED_RECORD: u16 = 0x5A03;
/// The OAM id of declarations.
pub(crate) const DECLARATIONS: u16 = 0x5A02;

/// The forms of declarations.
pub(crate) const SNAPSHOT: u8 = 0;

pub(crate) const ADDED: u8 = 1;

pub(crate) const REMOVED: u8 = 2;

/// The most bytes of a content, of an identifier as its length is read, and of a key.
pub(crate) const MOST_CONTENT: u64 = (1 << 32) - 1;

pub(crate) const MOST_ID: u64 = 255;

pub(crate) const MOST_KEY: u64 = (1 << 16) - 1;

/// The numbers below it are one byte.
pub(crate) const ONE_BYTE: u8 = 128;
