//! Why a script's line is refused.

use std::alloc::{AllocError, AllocFailed};
use thiserror::Error;

/// A refusal. `NoMemory` is no refusal of the line: memory ran out while it was read or applied.
#[derive(Clone, Copy, Debug, PartialEq, Eq, Error)]
pub enum ScriptError {
    #[error("the first word is no command")]
    UnknownCommand,
    #[error("the words do not fit the command")]
    BadWords,
    #[error("no such router or client")]
    UnknownName,
    #[error("the name or the id is taken")]
    NameTaken,
    #[error("a word is no key")]
    BadKey,
    #[error("the two are not linked")]
    NotLinked,
    #[error("the two are linked already")]
    AlreadyLinked,
    #[error("nothing waits there")]
    NothingThere,
    #[error("the client is not asked that")]
    NotAsked,
    #[error("the network is not settled")]
    NotSettled,
    #[error("not only samples are under way")]
    NotSamples,
    #[error("not each router is reached from each other")]
    NotJoined,
    #[error("a limit would be passed")]
    Limit,
    #[error("out of memory")]
    NoMemory,
}

impl From<AllocError> for ScriptError {
    ghost use Rattle.std.specs.Prelude.{◌≡◌};
    ghost use Rattle.zr_script_spec.specs.declared.error.ScriptError.TheVariants.{NoMemory};

    ghost from_gives = { λ _ e. e ≡ NoMemory };

    fn from(_e: AllocError) -> ScriptError {
        ScriptError::NoMemory
    }
}

impl<T: Drop> From<AllocFailed<T>> for ScriptError {
    ghost use Rattle.std.specs.Prelude.{◌≡◌};
    ghost use Rattle.zr_script_spec.specs.declared.error.ScriptError.TheVariants.{NoMemory};

    ghost from_gives = { λ _ e. e ≡ NoMemory };

    fn from(_e: AllocFailed<T>) -> ScriptError {
        ScriptError::NoMemory
    }
}
