use crate::giving::Giving;
use crate::note::{Anything, Link, parcels, ring_name};
use crate::threads::{PARCELS, relay};
use crate::turns::{PLACES, places_alike};
use std::alloc::{AllocError, Global};
use std::marker::Brand;
use std::sync::Wait;
use std::test::Fail;
use std::thread::Threads;
use zr_hist::{History, Worn};
use zr_ring::{Took, parcels_keep_their_places, ring};

#[test]
fn places_come_out_as_from_rtrb(rt: HostRuntime) -> Result<(), Fail> {
    assert!(rt; places_alike(rt.alloc())? == PLACES);
    Ok(())
}

// How many parcels came in order from one thread to another, and how many were right.
fn relayed<R: Threads + Wait + Sync>(rt: &R, alloc: Global) -> Result<(u64, u64), AllocError> {
    let (giving, mut taker) = Giving::ring(alloc, 256)?;
    let (history, kept, pass) = History::<u64>::new(alloc)?;
    Ok(relay::<Brand, R>(rt, alloc, history, kept, pass, giving, &mut taker))
}

#[test]
fn parcels_go_from_thread_to_thread(rt: HostRuntime) -> Result<(), Fail> {
    assert!(rt; relayed(&rt, rt.alloc())? == (PARCELS, PARCELS));
    parcels_keep_their_places(&Link(1));
    Ok(())
}

fn place(appended: Result<u64, Worn>) -> u64 {
    match appended {
        Ok(place) => place,
        Err(_) => u64::MAX,
    }
}

// The places of two entries, the lengths at which two passes then look, and the one at the close.
fn counted(alloc: Global) -> Result<[u64; 5], AllocError> {
    let (history, mut kept, mut first) = History::<u64>::new(alloc)?;
    let mut second = history.split(&mut first);
    let seven = place(history.append(&mut kept, &mut first, &7));
    let eight = place(history.append(&mut kept, &mut second, &8));
    let length = history.look(&mut first);
    let length_beside = history.look_beside(&mut kept, &mut second);
    history.join(&mut first, second);
    Ok([
        seven,
        eight,
        length,
        length_beside,
        history.close(kept, first),
    ])
}

#[test]
fn a_history_counts_its_entries(rt: HostRuntime) -> Result<(), Fail> {
    assert!(rt; counted(rt.alloc())? == [0, 1, 2, 2, 2]);
    Ok(())
}

// Whether a parcel with this place was taken, or an end with this reason, or nothing where there is neither.
fn is_taken(took: Took<Anything>, place: Option<u64>, reason: Option<u8>) -> bool {
    match took {
        Took::Parcel(parcel) => place == Some(parcel.place),
        Took::Ended(ended) => reason.is_some() && ended == reason,
        Took::Nothing => place.is_none() && reason.is_none(),
    }
}

// Whether a ring of two slots refuses three parcels and takes two, gives both and then the end, twice, and counts what is free.
fn given_and_taken(alloc: Global) -> Result<[bool; 9], AllocError> {
    let three = parcels(alloc, 0, 3)?;
    let two = parcels(alloc, 0, 2)?;
    let (mut giver, mut taker) = ring::<Anything>(alloc, 2, ring_name()?)?;
    let nothing = is_taken(taker.take(), None, None);
    let too_many = giver.give(three).is_err();
    let enough = giver.give(two).is_ok();
    let first = is_taken(giver.take_beside(&mut taker), Some(0), None);
    let free = giver.free() == 1;
    let free_beside = giver.free_beside(&mut taker) == 1;
    giver.end(Some(3), Anything);
    let second = is_taken(taker.take(), Some(1), None);
    let end = is_taken(taker.take(), None, Some(3));
    let once_more = is_taken(taker.take(), None, Some(3));
    Ok([
        nothing,
        too_many,
        enough,
        first,
        free,
        free_beside,
        second,
        end,
        once_more,
    ])
}

#[test]
fn a_ring_gives_its_parcels_and_its_end(rt: HostRuntime) -> Result<(), Fail> {
    assert!(rt; given_and_taken(rt.alloc())? == [true; 9]);
    Ok(())
}
