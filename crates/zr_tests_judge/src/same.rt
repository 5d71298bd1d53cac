//! Whether two samples, queries or replies are one.

ghost use Rattle.std.specs.Prelude.{◌≡◌};
ghost use Rattle.std.specs.Option.{option_eq};
ghost use Rattle.zr_tests_judge.specs.Given.{carried_of};
ghost use Rattle.zr_tests_judge.specs.Same.{is_same_bytes, is_same_carried, is_same_content, is_same_extras, is_same_target};

use crate::broker::Carried;
use zr_bytes::ByteString;
use zr_msg::content::Content;
use zr_msg::extras::Extras;
use zr_msg::msg::Target;

/// Whether two samples or queries are one.
pub fn is_same_carried(a: &Carried<'_>, b: &Carried<'_>) -> bool
    ensures { result ≡ is_same_carried (carried_of a.now) (carried_of b.now) }
{
    match (a, b) {
        (Carried::Sample { content }, Carried::Sample { content: other }) => {
            is_same_content(content, other)
        }
        (
            Carried::Query { target, content },
            Carried::Query {
                target: other_target,
                content: other,
            },
        ) => is_same_target(*target, *other_target) && is_same_content(content, other),
        (Carried::Sample { .. }, Carried::Query { .. })
        | (Carried::Query { .. }, Carried::Sample { .. }) => false,
    }
}

fn is_same_target(a: Target, b: Target) -> bool
    ensures { result ≡ is_same_target a b }
{
    a == b
}

/// Whether two contents are one.
pub fn is_same_content(a: &Content, b: &Content) -> bool
    ensures { result ≡ is_same_content a.now b.now }
{
    a.key() == b.key()
        && is_same_extras(a.extras(), b.extras())
        && a.body().as_slice() == b.body().as_slice()
}

fn is_same_extras(a: &Extras, b: &Extras) -> bool
    ensures { result ≡ is_same_extras a.now b.now }
{
    a.qos == b.qos
        && is_same_text(&a.stamp, &b.stamp)
        && a.budget == b.budget
        && a.timeout == b.timeout
        && is_same_text(&a.responder, &b.responder)
        && a.marks == b.marks
}

fn is_same_text(a: &Option<ByteString>, b: &Option<ByteString>) -> bool
    ensures { result ≡ option_eq is_same_bytes a.now b.now }
{
    match (a, b) {
        (Some(x), Some(y)) => x.as_slice() == y.as_slice(),
        (None, None) => true,
        (Some(_), None) | (None, Some(_)) => false,
    }
}
