//! The span of frames that a ticket stands for.
ghost use Rattle.std.specs.Prelude.{◌≡◌};

use std::marker::Model;

/// Whom a span serves.
#[derive(Clone, Copy)]
pub enum Purpose {
    /// Everything outside a session.
    Host,
    /// One session.
    Launch,
}

/// A span of frames that was taken from a pool. Only `Pool::take` makes one. It has no `Drop`, so
/// it has to be given back, by `Pool::give`. Contracts see the span.
#[must_use]
pub struct Ticket {
    pub(crate) first: u32,
    pub(crate) frames: u32,
    pub(crate) purpose: Purpose,
}

impl Model for Ticket {
    ghost use Rattle.region_pool.specs.Spans.{Span};

    ghost Value = { Span };

    ghost view = { λ t. record { first = t.first; frames = t.frames; purpose = t.purpose } };
}

impl Ticket {
    /// The number of the span's first frame.
    pub fn first(&self) -> u32
        ensures { result ≡ self.now.first }
    {
        self.first
    }

    /// How many frames the span has.
    pub fn frames(&self) -> u32
        ensures { result ≡ self.now.frames }
    {
        self.frames
    }

    /// Whom the span serves.
    pub fn purpose(&self) -> Purpose
        ensures { result ≡ self.now.purpose }
    {
        self.purpose
    }
}
