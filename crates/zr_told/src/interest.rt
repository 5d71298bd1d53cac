//! What an interest is in, and where it is told of it.

ghost use Rattle.std.specs.Prelude.{◌≡◌, ◌&&◌, true, IfOk};
ghost use Rattle.std.specs.Option.{option_map_or};
ghost use Rattle.zr_match.specs.Table.{texts_meet};
ghost use Rattle.zr_told_spec.specs.Place.{place_of, same};
ghost use Rattle.zr_told_spec.specs.Wanted.{asks, fits, told_as};

use crate::place::{class_of, is_same};
use std::alloc::{AllocError, Global};
use zr_key::key::KeyExpr;
use zr_local::interest::Interest;
use zr_match::meets;
use zr_msg::decl::Decl;
use zr_msg::msg::{Kinds, QUERYABLES, SUBSCRIBERS, TOKENS};
use zr_told_spec::place::{Class, Place};

/// Whether an interest is in what is declared at a place.
pub fn fits(interest: &Interest, class: Class, key: &KeyExpr) -> bool
    ensures { result ≡ fits interest.now (record { class = class; key = key.now }) }
{
    asks(interest.kinds, class) && is_met(interest, key)
}

/// Where an interest is told of what is declared at a place.
pub fn told_as(
    alloc: Global,
    interest: &Interest,
    class: Class,
    key: &KeyExpr,
) -> Result<Place, AllocError>
    ensures { IfOk result (λ p. p ≡ told_as interest.now (record { class = class; key = key.now })) }
{
    let key = told_key(interest, key).copy(alloc)?;
    Ok(Place { class, key })
}

/// Whether an interest is told at a place of a declaration.
pub fn is_told_at(interest: &Interest, place: &Place, decl: &Decl) -> bool
    ensures { result ≡ (fits interest.now (place_of decl.now) && same place.now (told_as interest.now (place_of decl.now))) }
{
    let class = class_of(decl.kind);
    let is_there = is_same(place, class, told_key(interest, &decl.key));
    is_there && fits(interest, class, &decl.key)
}

fn told_key<'a>(interest: &'a Interest, key: &'a KeyExpr) -> &'a KeyExpr
    ensures { result.now ≡ (told_as interest.now (record { class = Class.Subscriber; key = key.now })).key }
{
    if interest.aggregate {
        if let Some(own) = &interest.key {
            return own;
        }
    }
    key
}

/// Whether an interest is in declarations of a class.
pub fn asks(kinds: Kinds, class: Class) -> bool
    ensures { result ≡ asks kinds class }
{
    match class {
        Class::Subscriber => kinds.0 & SUBSCRIBERS != 0,
        Class::Queryable => kinds.0 & QUERYABLES != 0,
        Class::Living => kinds.0 & TOKENS != 0,
    }
}

fn is_met(interest: &Interest, key: &KeyExpr) -> bool
    ensures { result ≡ option_map_or (λ k. texts_meet key.now k) interest.now.key true }
{
    match &interest.key {
        Some(own) => meets(key, own),
        None => true,
    }
}
