//! Whether two messages are one sample in one form, so that they have the same bytes.

ghost use Rattle.std.specs.Prelude.{◌≡◌, true};
ghost use Rattle.zr_wire.specs.Writing.{writes_message};

use zr_bytes::ByteString;
use zr_id::zid::Zid;
use zr_msg::content::Content;
use zr_msg::extras::Extras;
use zr_msg::msg::Msg;

/// Whether both are samples with the same tree or none, key, extensions and body.
pub(crate) fn is_same_sample(a: &Msg, b: &Msg) -> bool
    ensures { result ≡ true → writes_message a.now ≡ writes_message b.now }
{
    let Msg::Push {
        tree: first,
        content: x,
    } = a
    else {
        return false;
    };
    let Msg::Push {
        tree: second,
        content: y,
    } = b
    else {
        return false;
    };
    is_same_tree(first, second) && is_same_content(x, y)
}

fn is_same_tree(a: &Option<Zid>, b: &Option<Zid>) -> bool
    ensures { result ≡ true → a.now ≡ b.now }
{
    match (a, b) {
        (None, None) => true,
        (Some(a), Some(b)) => is_same_root(*a, *b),
        (None, Some(_)) | (Some(_), None) => false,
    }
}

fn is_same_root(a: Zid, b: Zid) -> bool
    ensures { result ≡ true → a ≡ b }
{
    a == b
}

#[tactic(auto, using(crate::proofs::Same::same_bytes))]
fn is_same_content(a: &Content, b: &Content) -> bool
    ensures { result ≡ true → a.now ≡ b.now }
{
    is_same_extras(a.extras(), b.extras())
        && a.key() == b.key()
        && a.body().as_slice() == b.body().as_slice()
}

fn is_same_extras(a: &Extras, b: &Extras) -> bool
    ensures { result ≡ true → a.now ≡ b.now }
{
    a.marks == b.marks
        && is_same_number(a.qos, b.qos)
        && is_same_number(a.budget, b.budget)
        && is_same_number(a.timeout, b.timeout)
        && are_same_bytes(&a.stamp, &b.stamp)
        && are_same_bytes(&a.responder, &b.responder)
}

fn is_same_number(a: Option<u64>, b: Option<u64>) -> bool
    ensures { result ≡ true → a ≡ b }
{
    match (a, b) {
        (None, None) => true,
        (Some(a), Some(b)) => a == b,
        (None, Some(_)) | (Some(_), None) => false,
    }
}

#[tactic(auto, using(crate::proofs::Same::same_bytes))]
fn are_same_bytes(a: &Option<ByteString>, b: &Option<ByteString>) -> bool
    ensures { result ≡ true → a.now ≡ b.now }
{
    match (a, b) {
        (None, None) => true,
        (Some(a), Some(b)) => a.as_slice() == b.as_slice(),
        (None, Some(_)) | (Some(_), None) => false,
    }
}
