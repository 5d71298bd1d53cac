//! Links as bits.

use zr_id::link::LinkNo;

/// How many links a router has at most: each has a bit of a word.
pub const MOST_LINKS: u32 = u128::BITS;

/// The bit of a link, and none of one whose number is not below that of all.
pub fn bit_of(link: LinkNo) -> u128 {
    if link.0 < MOST_LINKS {
        1 << link.0
    } else {
        0 // no link of such a number comes up
    }
}
