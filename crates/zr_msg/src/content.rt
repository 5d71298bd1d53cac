//! What a message carries to its receivers.

ghost use Rattle.std.specs.Prelude.{◌≡◌, IfOk};

use crate::extras::Extras;
use crate::shared::Shared;
use std::alloc::{AllocError, Global};
use std::marker::Model;
use zr_body::Body;
use zr_key::key::KeyExpr;

/// The parts of a content.
#[derive(Debug, Drop)]
pub struct Parts {
    pub key: KeyExpr,
    pub extras: Extras,
    pub body: Body,
}

/// A key with extensions and a body. It is kept once, however many receivers it goes to; contracts see its parts.
#[derive(Debug)]
pub struct Content {
    parts: Shared<Parts>,
}

// Written out, so that it is proved here, and not by each crate that lets one go.
impl Drop for Content {
    fn drop(self) {
        let Self { parts: _parts } = self;
    }
}

impl Model for Content {
    ghost use Rattle.zr_msg.specs.declared.content.Parts.{Parts};

    ghost Value = { Parts };

    ghost view = { λ c. c.parts };
}

impl Content {
    /// The content of these parts.
    pub fn new(
        alloc: Global,
        key: KeyExpr,
        extras: Extras,
        body: Body,
    ) -> Result<Content, AllocError>
        ensures { IfOk result (λ c. c ≡ record { key = key; extras = extras; body = body }) }
    {
        Ok(Content {
            parts: Shared::new(alloc, Parts { key, extras, body })?,
        })
    }

    /// The key that it is about: an expression, with wildcards or without.
    pub fn key(&self) -> &KeyExpr
        ensures { result.now ≡ self.now.key }
    {
        &self.parts.get().key
    }

    /// The extensions.
    pub fn extras(&self) -> &Extras
        ensures { result.now ≡ self.now.extras }
    {
        &self.parts.get().extras
    }

    /// The body.
    pub fn body(&self) -> &Body
        ensures { result.now ≡ self.now.body }
    {
        &self.parts.get().body
    }

    /// The same content for one more message. It takes no memory, as [`Shared::copy`].
    pub fn copy(&self) -> Result<Content, AllocError>
        ensures { IfOk result (λ c. c ≡ self.now) }
    {
        Ok(Content {
            parts: self.parts.copy()?,
        })
    }
}
