//! The ends of a request that was passed on: who asked it, and the links that it went to.

use zr_id::link::LinkNo;

/// Who asked a request: a link, and the number that it gave the request there.
#[derive(Clone, Copy, Debug)]
pub struct Asker {
    pub link: LinkNo,
    pub number: u32,
}

/// One link to which a request was passed on, and the number that the request has there.
#[derive(Clone, Copy)]
pub struct Branch {
    pub link: LinkNo,
    pub number: u32,
}
