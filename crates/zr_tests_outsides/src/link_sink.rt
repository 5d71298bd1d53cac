//! The sinks that links have here.

ghost use Rattle.std.specs.Prelude.{◌<◌, None, length};
ghost use Rattle.zr_outside.specs.Sink.{Writes};

use crate::pipe::PipeSink;
use crate::seen::SeenSink;
use std::sync::Wait;
use zr_outside::sink::{Put, Sink};
use zr_outside_brief::{Brief, BriefSink};
use zr_outside_mem::gate::GateSink;

/// Where the bytes of a link go. All links of a router have sinks of one type.
#[derive(Drop)]
pub enum To<R: Wait + Drop> {
    Seen(SeenSink<R>),
    Gate(GateSink<SeenSink<R>>),
    Pipe(PipeSink<R>),
}

impl<R: Wait + Drop> To<R> {
    fn write(&mut self, from: &[u8]) -> Put
        requires { 0 < length from.now }
        ensures { Writes result from.now None None }
    {
        match self {
            To::Seen(sink) => sink.write(from),
            To::Gate(sink) => sink.write(from),
            To::Pipe(sink) => sink.write(from),
        }
    }
}

/// One of these sinks.
#[derive(Drop)]
pub struct LinkSink<R: Wait + Drop> {
    to: To<R>,
    faults: u64,
}

impl<R: Wait + Drop> LinkSink<R> {
    pub fn new(to: To<R>) -> LinkSink<R> {
        LinkSink { to, faults: 0 }
    }
}

impl<R: Wait + Drop> Sink for LinkSink<R> {
    ghost use Rattle.std.specs.Prelude.{None};

    ghost held = { λ _. None };

    ghost faults = { λ s. s.faults };

    fn write(&mut self, from: &[u8]) -> Put {
        let put = self.to.write(from);
        if let Put::Failed = put {
            self.faults = self.faults.saturating_add(1);
        }
        put
    }
}

impl<R: Wait + Drop> BriefSink for LinkSink<R> {
    fn write_briefly(&mut self, from: &[u8]) -> Brief {
        match self.write(from) {
            Put::Took(count) => Brief::Took(count),
            Put::Failed => Brief::Failed,
        }
    }
}
