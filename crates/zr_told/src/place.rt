//! Where declarations stand.

ghost use Rattle.std.specs.Prelude.{◌≡◌, IfOk};
ghost use Rattle.zr_told_spec.specs.Place.{same, class_of, is_token, place_of};

use std::alloc::{AllocError, Global};
use zr_key::key::KeyExpr;
use zr_msg::decl::{Decl, Kind};
use zr_told_spec::place::{Class, Place};

/// Of what sort a declaration is.
pub fn class_of(kind: Kind) -> Class
    ensures { result ≡ class_of kind }
{
    match kind {
        Kind::Sub => Class::Subscriber,
        Kind::Able | Kind::Full => Class::Queryable,
        Kind::Token => Class::Living,
    }
}

/// Whether a declaration is of a token.
pub fn is_token(kind: Kind) -> bool
    ensures { result ≡ is_token kind }
{
    match kind {
        Kind::Sub | Kind::Able | Kind::Full => false,
        Kind::Token => true,
    }
}

/// Where a declaration stands.
pub fn place_of(alloc: Global, decl: &Decl) -> Result<Place, AllocError>
    ensures { IfOk result (λ p. p ≡ place_of decl.now) }
{
    Ok(Place {
        class: class_of(decl.kind),
        key: decl.key.copy(alloc)?,
    })
}

/// Whether a declaration stands at a place.
pub fn is_at(place: &Place, decl: &Decl) -> bool
    ensures { result ≡ same place.now (place_of decl.now) }
{
    is_same(place, class_of(decl.kind), &decl.key)
}

/// Whether a place is that of a class and a key.
pub fn is_same(place: &Place, class: Class, key: &KeyExpr) -> bool
    ensures { result ≡ same place.now (record { class = class; key = key.now }) }
{
    let texts = place.key.text().as_bytes().cmp(key.text().as_bytes());
    place.class.cmp(&class).then(texts).is_eq()
}
