//! Rows for the judge: a query for the latest replies, what the network may report of it, and forged reports.

use crate::judges::{Row, Script, Sent};

// Two queryables, and one query for the latest replies. They reply under one key, of which the second one has the later value, and the first one
// under a key before that.
pub(crate) const LATEST_QUERY: Script = Script {
    before: &[
        "router 0a",
        "client c1 0a",
        "client c2 0a",
        "client c3 0a",
        "able c2 1 a/*",
        "handle 0a c2",
        "able c3 1 a/*",
        "handle 0a c3",
    ],
    phase: &[
        "get c1 5 a/* all latest",
        "handle 0a c1",
        "take 0a c2",
        "take 0a c3",
        "reply c2 1 a/b x 5",
        "reply c3 1 a/b y 6",
        "reply c2 1 a/a z",
        "end c2 1",
        "handle 0a c2",
        "handle 0a c3",
        "handle 0a c2",
        "handle 0a c2",
        "end c3 1",
        "handle 0a c3",
        "take 0a c1",
        "take 0a c1",
        "take 0a c1",
    ],
};

const ASKS_FIRST: Sent = (0x0a, 0xc2, 10, "get c1 1 a/* all latest");

const ASKS_SECOND: Sent = (0x0a, 0xc3, 10, "get c1 1 a/* all latest");

const BEST_OF_A: Sent = (0x0a, 0xc1, 22, "reply c2 5 a/a z");

const BEST_OF_B: Sent = (0x0a, 0xc1, 22, "reply c3 5 a/b y 6");

const OLDER_OF_B: Sent = (0x0a, 0xc1, 22, "reply c2 5 a/b x 5");

const ENDS_LATEST: Sent = (0x0a, 0xc1, 22, "end c3 5");

pub(crate) const TRUE_LATEST: &[Row] = &[
    (1, &[], false, "asked for the latest"),
    (
        4,
        &[ASKS_FIRST, ASKS_SECOND],
        true,
        "both requests for the latest are sent",
    ),
    (7, &[ASKS_FIRST, ASKS_SECOND], false, "both have replied"),
    (12, &[ASKS_FIRST, ASKS_SECOND], true, "one has ended"),
    (14, &[ASKS_FIRST, ASKS_SECOND], false, "both have ended"),
    (
        15,
        &[ASKS_FIRST, ASKS_SECOND, BEST_OF_A],
        false,
        "the first of the best is sent",
    ),
    (
        15,
        &[
            ASKS_FIRST,
            ASKS_SECOND,
            (0x0a, 0xc1, 16, "reply c2 5 a/a z"),
        ],
        false,
        "with the tag of its line",
    ),
    (
        16,
        &[ASKS_FIRST, ASKS_SECOND, BEST_OF_A, BEST_OF_B],
        false,
        "all of the best are sent",
    ),
    (
        17,
        &[ASKS_FIRST, ASKS_SECOND, BEST_OF_A, BEST_OF_B, ENDS_LATEST],
        true,
        "the final behind the best is sent",
    ),
];

pub(crate) const FORGED_LATEST: &[Row] = &[
    (
        16,
        &[ASKS_FIRST, ASKS_SECOND, BEST_OF_B, BEST_OF_A],
        false,
        "held replies by their arrival",
    ),
    (
        16,
        &[ASKS_FIRST, ASKS_SECOND, BEST_OF_A, OLDER_OF_B],
        false,
        "an older one is kept",
    ),
    (
        16,
        &[ASKS_FIRST, ASKS_SECOND, BEST_OF_A, OLDER_OF_B, BEST_OF_B],
        false,
        "both of one key",
    ),
    (
        16,
        &[
            ASKS_FIRST,
            ASKS_SECOND,
            BEST_OF_A,
            (0x0a, 0xc1, 22, "reply c2 5 a/b y 6"),
        ],
        false,
        "by another clock",
    ),
    (
        12,
        &[ASKS_FIRST, ASKS_SECOND, BEST_OF_A],
        false,
        "one of the best before all have ended",
    ),
    (
        12,
        &[ASKS_FIRST, ASKS_SECOND, ENDS_LATEST],
        false,
        "the final of the latest before all have ended",
    ),
    (
        17,
        &[ASKS_FIRST, ASKS_SECOND, ENDS_LATEST],
        false,
        "a final before the best",
    ),
    (
        17,
        &[ASKS_FIRST, ASKS_SECOND, BEST_OF_A, ENDS_LATEST, BEST_OF_B],
        false,
        "one of the best behind the final",
    ),
    (
        17,
        &[
            ASKS_FIRST,
            ASKS_SECOND,
            BEST_OF_A,
            BEST_OF_B,
            ENDS_LATEST,
            BEST_OF_A,
        ],
        true,
        "one of the best once more behind the final",
    ),
    (
        17,
        &[ASKS_FIRST, ASKS_SECOND, BEST_OF_A, BEST_OF_B],
        true,
        "the final of the latest is never sent",
    ),
    (
        17,
        &[ASKS_FIRST, ASKS_SECOND, BEST_OF_A],
        true,
        "one of the best is never sent",
    ),
];
