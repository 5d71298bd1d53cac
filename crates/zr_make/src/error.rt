//! Why a script was not written whole.

ghost use Rattle.std.specs.Prelude.{◌≡◌};
ghost use Rattle.zr_make.specs.declared.error.MakeError.{MakeError};
ghost use Rattle.zr_make.specs.declared.error.MakeError.TheVariants as cause;

use std::alloc::AllocError;
use zr_outside::sink::WriteFailed;

/// Why a script was not written whole.
#[derive(Clone, Copy, Debug, PartialEq, Eq)]
pub enum MakeError {
    /// Memory ran out.
    NoMemory,
    /// A write failed.
    WriteFault,
}

impl From<AllocError> for MakeError {
    ghost from_gives = { λ _ e. e ≡ cause.NoMemory };

    fn from(_: AllocError) -> MakeError {
        MakeError::NoMemory
    }
}

impl From<WriteFailed> for MakeError {
    ghost from_gives = { λ _ e. e ≡ cause.WriteFault };

    fn from(_: WriteFailed) -> MakeError {
        MakeError::WriteFault
    }
}
