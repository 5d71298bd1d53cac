//! Parcels, one after another.

ghost use Rattle.std.specs.Prelude.{◌≡◌, ◌++◌, [], false, if◌then◌else◌, IfOk, OnOk, OnErr};
ghost use Rattle.zr_admin.specs.Hearing.{heard};

use std::alloc::{AllocError, Global};
use std::marker::Model;
use std::mem;
use zr_bytes::{Cursor, ReadError};
use zr_trans::{Trans, read_trans};

/// What came of a message of which fragments are still to come.
#[derive(Drop)]
pub struct Hearing {
    alloc: Global,
    kept: Vec<u8>,
}

impl Model for Hearing {
    ghost use Rattle.std.specs.Prelude.{ℕ, List};

    ghost Value = { List ℕ };

    ghost view = { λ h. h.kept.items };
}

/// What a parcel brought: a part of a message, or the bytes of messages that are whole.
#[derive(Drop)]
pub struct Heard {
    pub part: bool,
    pub whole: Vec<u8>,
}

impl Hearing {
    /// Nothing came yet.
    pub fn new(alloc: Global) -> Hearing
        ensures { result ≡ [] }
    {
        Hearing {
            alloc,
            kept: Vec::new(alloc),
        }
    }

    /// Takes a parcel in. Where memory runs out nothing has changed.
    pub fn hear(&mut self, parcel: &[u8]) -> Result<Heard, AllocError>
        ensures part { IfOk result (λ h. h.part ≡ (heard self.old parcel.now).part) }
        ensures whole { IfOk result (λ h. h.whole.items ≡ (heard self.old parcel.now).whole) }
        ensures kept { OnOk result (self.new ≡ (heard self.old parcel.now).kept) }
        ensures unchanged { OnErr result (self.new ≡ self.old) }
    {
        let mut c = Cursor::new(parcel);
        match read_trans(self.alloc, &mut c) {
            Ok(Trans::Frame { .. }) => {
                let whole = match c.as_slice().to_vec(self.alloc) {
                    Ok(whole) => whole,
                    Err(e) => return Err(e),
                };
                self.kept = Vec::new(self.alloc);
                Ok(Heard { part: false, whole })
            }
            Ok(Trans::Fragment { more, piece, .. }) => self.join(more, piece.as_slice()),
            Ok(_) => Ok(self.nothing()),
            Err(ReadError::NoMemory) => Err(AllocError),
            Err(_) => Ok(self.nothing()),
        }
    }

    fn nothing(&self) -> Heard
        ensures { (result.part ≡ false) × (result.whole.items ≡ []) }
    {
        Heard {
            part: false,
            whole: Vec::new(self.alloc),
        }
    }

    fn join(&mut self, more: bool, piece: &[u8]) -> Result<Heard, AllocError>
        ensures part { IfOk result (λ h. h.part ≡ more) }
        ensures whole { IfOk result (λ h. h.whole.items ≡ (if more then [] else self.old ++ piece.now)) }
        ensures kept { OnOk result (self.new ≡ (if more then self.old ++ piece.now else [])) }
        ensures unchanged { OnErr result (self.new ≡ self.old) }
    {
        if self.kept.extend_from_slice(piece).is_err() {
            return Err(AllocError);
        }
        if more {
            return Ok(Heard {
                part: true,
                whole: Vec::new(self.alloc),
            });
        }
        let whole = mem::replace(&mut self.kept, Vec::new(self.alloc));
        Ok(Heard { part: false, whole })
    }
}
