//! Values in the order in which they came, in a map by their places: the next one comes behind all others, and any of them is found and
//! goes in time by the logarithm of how many there are.
#![tactic(auto)]

ghost use Rattle.std.specs.Prelude.{◌≡◌, ◌<◌, ◌^◌, ◌++◌, ◌∷◌, [], IfOk, IfErr, OnOk, OnErr};
ghost use Rattle.std.specs.BTreeMap.{btree_map_len, keys, values};
ghost use Rattle.std.specs.List.{All};

use std::alloc::{AllocError, Global};
use std::collections::BTreeMap;

/// The place behind all others. After 2^64 values of which one always stood there places run out, which is told as no memory.
pub fn next_place<T>(items: &BTreeMap<u64, T, Global>) -> Result<u64, AllocError>
    ensures { IfOk result (λ place. All (λ k. k < place) (keys items.now)) }
{
    match items.last_key_value() {
        Some((last, _)) => last.checked_add(1).ok_or(AllocError),
        None => Ok(0),
    }
}

/// A value comes, at a place behind all others. Where memory runs out it comes back.
pub fn put_last<T: Drop>(
    items: &mut BTreeMap<u64, T, Global>,
    place: u64,
    value: T,
) -> Result<(), T>
    requires { All (λ k. k < place) (keys items.old) }
    ensures ok { OnOk result (values items.new ≡ values items.old ++ value ∷ []) }
    ensures err { OnErr result (items.new.entries ≡ items.old.entries) }
    ensures back { IfErr result (λ v. v ≡ value) }
{
    match items.insert(place, value) {
        Ok(_) => Ok(()),
        Err(failed) => Err(failed.value.1),
    }
}

/// A value comes behind all others: its place.
pub fn push<T: Drop>(items: &mut BTreeMap<u64, T, Global>, value: T) -> Result<u64, AllocError>
    ensures ok { OnOk result (values items.new ≡ values items.old ++ value ∷ []) }
    ensures err { OnErr result (items.new.entries ≡ items.old.entries) }
    ensures few { btree_map_len items.old < 2 ^ 63 }
{
    // Read, so that the proof knows how many there may be.
    let _few = items.len();
    let place = next_place(items)?;
    match put_last(items, place, value) {
        Ok(()) => Ok(place),
        Err(_) => Err(AllocError),
    }
}
