//! What the header bytes of transport messages are made of.

pub(crate) const INIT: u8 = 0x01;

pub(crate) const OPEN: u8 = 0x02;

pub(crate) const CLOSE: u8 = 0x03;

pub(crate) const KEEP_ALIVE: u8 = 0x04;

pub(crate) const FRAME: u8 = 0x05;

pub(crate) const FRAGMENT: u8 = 0x06;

/// The byte of INIT that has the length of the identifier, less one, and the role: the length counts in steps of this.
pub(crate) const LENGTH_STEP: u8 = 16;
/// How many roles two bits tell apart.
pub(crate) const ROLES: u8 = 4;
/// How many resolutions four bits tell apart.
pub(crate) const RESOLUTIONS: u8 = 16;

/// The extension of INIT by which a router says that it tells others its links.
pub(crate) const SPEAKS: u8 = 0x09;
/// The extension of FRAME and FRAGMENT that has the quality of service.
pub(crate) const QOS: u8 = 0x01;
