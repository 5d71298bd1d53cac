//! What a router dials: an address, and what the link weighs. Which word spells it is said here; who dials stands above.
#![tactic(auto)]

ghost use Rattle.std.specs.Prelude.{◌≡◌, IfOk, Some, None};
ghost use Rattle.std.specs.Path.{rsplit_once};
ghost use Rattle.zr_dial.specs.Dial.{dial_of};

use std::alloc::{AllocError, Global};
use std::marker::Model;
use zr_msg::peer::Weight;
use zr_script::word::weight;
use zr_script_spec::error::ScriptError;

/// An address that is dialled, and what the link weighs at this end if the peer is a router: at least 1.
#[derive(Drop)]
pub struct Dial {
    pub address: String,
    pub weight: u16,
}

impl Model for Dial {
    ghost use Rattle.std.specs.Prelude.{◌<◌};
    ghost use Rattle.std.specs.String.{string_bytes};
    ghost use Rattle.zr_dial.specs.Dial.{DialState};

    ghost Value = { DialState };

    ghost view = { λ d. record { address = string_bytes d.address; weight = d.weight } };

    ghost invariant = { λ d. 0 < d.weight };
}

impl Dial {
    /// The address.
    pub fn address(&self) -> &str
        ensures { result.now ≡ self.now.address }
    {
        self.address.as_str()
    }

    /// What the link weighs.
    pub fn weight(&self) -> Weight
        ensures { result ≡ self.now.weight }
    {
        Weight::new(self.weight)
    }
}

/// What a word asks to be dialled: `ADDRESS`, or `ADDRESS,W` with a weight from 1 to 65,535. Without W the weight is 1. There is none where what
/// stands behind the last comma is no weight.
pub fn read_dial(alloc: Global, word: &str) -> Result<Option<Dial>, AllocError>
    ensures { IfOk result (λ dial. dial ≡ dial_of word.now) }
{
    match word.rsplit_once(',') {
        None => dialled(alloc, word, Weight::one()),
        Some((address, digits)) => match weight(digits.as_bytes()) {
            Ok(weight) => dialled(alloc, address, weight),
            Err(error) => undialled(error),
        },
    }
}

// What stands behind the comma is no weight, where memory didn't run out.
fn undialled(error: ScriptError) -> Result<Option<Dial>, AllocError>
    ensures { IfOk result (λ dial. (dial ≡ None) × (error ≡ ScriptError.NoMemory → ⊥)) }
{
    match error {
        ScriptError::NoMemory => Err(AllocError),
        ScriptError::UnknownCommand
        | ScriptError::BadWords
        | ScriptError::UnknownName
        | ScriptError::NameTaken
        | ScriptError::BadKey
        | ScriptError::NotLinked
        | ScriptError::AlreadyLinked
        | ScriptError::NothingThere
        | ScriptError::NotAsked
        | ScriptError::NotSettled
        | ScriptError::NotSamples
        | ScriptError::NotJoined
        | ScriptError::Limit => Ok(None),
    }
}

fn dialled(alloc: Global, address: &str, weight: Weight) -> Result<Option<Dial>, AllocError>
    ensures { IfOk result (λ dial. dial ≡ Some (record { address = address.now; weight = weight })) }
{
    Ok(Some(Dial {
        address: String::from_str(alloc, address)?,
        weight: weight.get(),
    }))
}
