//! What words a command takes.

ghost use Rattle.std.specs.Prelude.{◌≡◌, ◌++◌, map, codes};
ghost use Rattle.zr_script_explain.specs.Forms.{declares, ends_interest, form, later_form, last_form, gives_number, is_interest, is_numbered, is_of_client, is_of_query, is_query, is_reply, is_single, key_number, links, most_behind, publishes, undeclares, word_at, words_behind};

use zr_script::word::is_word;

/// The word of this number, the command's name being number 0; no bytes where there is none.
pub(crate) fn word_at<'a>(number: usize, words: &[&'a [u8]]) -> &'a [u8]
    ensures { result.now ≡ word_at number (map (λ w. w.now) words.now) }
{
    match words {
        [] => &[],
        [word, more @ ..] => {
            if number == 0 {
                word
            } else {
                word_at(number - 1, more)
            }
        }
    }
}

/// Whether a command declares.
pub(crate) fn declares(name: &[u8]) -> bool
    ensures { result ≡ declares name.now }
{
    is_word(name, b"sub")
        || is_word(name, b"able")
        || is_word(name, b"full")
        || is_word(name, b"token")
}

/// Whether a command takes a declaration back.
pub(crate) fn undeclares(name: &[u8]) -> bool
    ensures { result ≡ undeclares name.now }
{
    is_word(name, b"unsub") || is_word(name, b"unable") || is_word(name, b"untoken")
}

fn publishes(name: &[u8]) -> bool
    ensures { result ≡ publishes name.now }
{
    is_word(name, b"put") || is_word(name, b"del")
}

/// Whether a command asks a query.
pub(crate) fn is_query(name: &[u8]) -> bool
    ensures { result ≡ is_query name.now }
{
    is_word(name, b"get")
}

/// Whether a command replies to a request.
pub(crate) fn is_reply(name: &[u8]) -> bool
    ensures { result ≡ is_reply name.now }
{
    is_word(name, b"reply")
}

// Whether a command asks or answers a query.
fn is_of_query(name: &[u8]) -> bool
    ensures { result ≡ is_of_query name.now }
{
    is_query(name) || is_reply(name) || is_word(name, b"end")
}

/// Whether a command is that of an interest.
pub(crate) fn is_interest(name: &[u8]) -> bool
    ensures { result ≡ is_interest name.now }
{
    is_word(name, b"interest")
}

/// Whether a command ends an interest.
pub(crate) fn ends_interest(name: &[u8]) -> bool
    ensures { result ≡ ends_interest name.now }
{
    is_word(name, b"uninterest")
}

/// Whether a command links two routers.
pub(crate) fn links(name: &[u8]) -> bool
    ensures { result ≡ links name.now }
{
    is_word(name, b"link")
}

/// Whether the second word behind a command's name is a number.
pub(crate) fn is_numbered(name: &[u8]) -> bool
    ensures { result ≡ is_numbered name.now }
{
    declares(name)
        || undeclares(name)
        || is_interest(name)
        || ends_interest(name)
        || is_of_query(name)
}

/// Whether the first word behind a command's name is the client that acts.
pub(crate) fn is_of_client(name: &[u8]) -> bool
    ensures { result ≡ is_of_client name.now }
{
    publishes(name) || is_numbered(name)
}

/// Whether a command gives something of a client a number that must be free.
pub(crate) fn gives_number(name: &[u8]) -> bool
    ensures { result ≡ gives_number name.now }
{
    declares(name) || is_interest(name) || is_query(name)
}

/// The number of the word that is the key, where a command takes one.
pub(crate) fn key_number(name: &[u8]) -> usize
    ensures { result ≡ key_number name.now }
{
    if is_interest(name) {
        5
    } else if declares(name) || is_of_query(name) {
        3
    } else {
        2
    }
}

fn is_single(name: &[u8]) -> bool
    ensures { result ≡ is_single name.now }
{
    is_word(name, b"router") || is_word(name, b"run") || is_word(name, b"show")
}

/// How many words a command takes behind its name, at least.
pub(crate) fn words_behind(name: &[u8]) -> usize
    ensures { result ≡ words_behind name.now }
{
    if is_word(name, b"mark") || is_word(name, b"fan") {
        0
    } else if is_single(name) {
        1
    } else if declares(name) || is_word(name, b"put") {
        3
    } else if is_query(name) || is_reply(name) {
        4
    } else if is_interest(name) {
        5
    } else {
        2
    }
}

/// How many words a command takes behind its name, at most.
pub(crate) fn most_behind(name: &[u8]) -> usize
    ensures { result ≡ most_behind name.now }
{
    if is_interest(name) {
        6
    } else if is_query(name) || is_reply(name) {
        5
    } else if links(name) {
        3
    } else {
        words_behind(name)
    }
}

/// Which words a command takes.
#[tactic(auto, unfolding(crate::specs::Forms::form, crate::specs::Forms::later_form, crate::specs::Forms::last_form))]
pub(crate) fn form(name: &[u8]) -> &'static [u8]
    ensures { result.now ≡ form name.now }
{
    if is_word(name, b"router") {
        b"router ID"
    } else if is_word(name, b"client") {
        b"client ID ROUTER"
    } else if is_word(name, b"link") {
        b"link A B [W]"
    } else if is_word(name, b"up") {
        b"up A B"
    } else if is_word(name, b"break") {
        b"break A B"
    } else if is_word(name, b"down") {
        b"down A B"
    } else {
        later_form(name)
    }
}

// The commands by which clients declare, and those that stand behind them.
#[tactic(auto, unfolding(crate::specs::Forms::later_form, crate::specs::Forms::last_form))]
fn later_form(name: &[u8]) -> &'static [u8]
    ensures { result.now ≡ later_form name.now }
{
    if is_word(name, b"sub") {
        b"sub CLIENT N KEY"
    } else if is_word(name, b"unsub") {
        b"unsub CLIENT N"
    } else if is_word(name, b"able") {
        b"able CLIENT N KEY"
    } else if is_word(name, b"full") {
        b"full CLIENT N KEY"
    } else if is_word(name, b"unable") {
        b"unable CLIENT N"
    } else if is_word(name, b"token") {
        b"token CLIENT N KEY"
    } else if is_word(name, b"untoken") {
        b"untoken CLIENT N"
    } else if is_word(name, b"interest") {
        b"interest CLIENT N MODE KIND KEY [aggregate]"
    } else if is_word(name, b"uninterest") {
        b"uninterest CLIENT N"
    } else {
        last_form(name)
    }
}

// The commands that send messages or let them move on, and those that stand behind them.
#[tactic(auto, unfolding(crate::specs::Forms::last_form))]
fn last_form(name: &[u8]) -> &'static [u8]
    ensures { result.now ≡ last_form name.now }
{
    if is_word(name, b"put") {
        b"put CLIENT KEY PAYLOAD"
    } else if is_word(name, b"del") {
        b"del CLIENT KEY"
    } else if is_word(name, b"get") {
        b"get CLIENT N KEY TARGET [latest]"
    } else if is_word(name, b"reply") {
        b"reply CLIENT N KEY PAYLOAD [TIME]"
    } else if is_word(name, b"end") {
        b"end CLIENT N"
    } else if is_word(name, b"handle") {
        b"handle ROUTER FROM"
    } else if is_word(name, b"take") {
        b"take ROUTER TO"
    } else if is_word(name, b"run") {
        b"run N"
    } else if is_word(name, b"fan") {
        b"fan"
    } else if is_word(name, b"show") {
        b"show ROUTER"
    } else {
        b"mark"
    }
}
