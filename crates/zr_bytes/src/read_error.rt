//! Why bytes could not be read.

use std::alloc::{AllocError, AllocFailed};
use thiserror::Error;

/// A refusal of any reading call of the wire. Each call says which of these it gives, and exactly where.
#[derive(Clone, Copy, Debug, PartialEq, Eq, Error)]
pub enum ReadError {
    #[error("the bytes end inside a value")]
    Short,
    #[error("a number is above its type or limit")]
    TooBig,
    #[error("no message or body has this id here")]
    UnknownId,
    #[error("an unknown extension is mandatory")]
    Mandatory,
    #[error("a field is out of form")]
    BadText,
    #[error("a key expression is out of form")]
    BadKey,
    #[error("a key names a scope that is not declared")]
    UnknownScope,
    #[error("bytes stand behind the value")]
    Extra,
    #[error("out of memory")]
    NoMemory,
}

impl From<AllocError> for ReadError {
    ghost use Rattle.std.specs.Prelude.{◌≡◌};
    ghost use Rattle.zr_bytes.specs.declared.read_error.ReadError.TheVariants.{NoMemory};

    ghost from_gives = { λ _ e. e ≡ NoMemory };

    fn from(_e: AllocError) -> ReadError {
        ReadError::NoMemory
    }
}

impl<T: Drop> From<AllocFailed<T>> for ReadError {
    ghost use Rattle.std.specs.Prelude.{◌≡◌};
    ghost use Rattle.zr_bytes.specs.declared.read_error.ReadError.TheVariants.{NoMemory};

    ghost from_gives = { λ _ e. e ≡ NoMemory };

    fn from(_e: AllocFailed<T>) -> ReadError {
        ReadError::NoMemory
    }
}
