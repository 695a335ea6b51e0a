//! What is found out of a link at an output port.

ghost use Rattle.std.specs.Prelude.{◌≡◌};
ghost use Rattle.afdx_pairing.specs.Events.{differs};

use afdx_units::Stamp;

/// A record of a capture, by its number there and its instant.
#[derive(Clone, Copy, Debug, PartialEq, Eq)]
pub struct Mark {
    pub number: u64,
    pub stamp: Stamp,
}

/// A frame that came, and the record that left of it.
#[derive(Clone, Copy, Debug, PartialEq, Eq)]
pub struct Pair {
    pub came: Mark,
    pub left: Mark,
    /// Nanoseconds from the frame's stamp until the line is free again; 0 if the stamps are off by more.
    pub delay: u128,
}

/// What became of a frame that a link's account passed, or what a record is that left for the link.
#[derive(Clone, Copy, Debug, PartialEq, Eq)]
pub enum Event {
    /// The frame left within its bounds.
    Kept(Pair),
    /// It left before it can have left.
    Early(Pair),
    /// It left past its bound.
    Late(Pair),
    /// It did not leave.
    Missing(Mark),
    /// It may leave after the recording ended.
    After(Mark),
    /// The record is of no passed frame; beside it the policed frame that has its bytes, if one came within the bound before it.
    Extra(Mark, Option<Mark>),
    /// The record may be of a frame that came before the recording began.
    Before(Mark),
}

impl Event {
    /// Returns whether it speaks against the switch. O(1).
    pub fn differs(&self) -> bool
        ensures { result ≡ differs self.now }
    {
        match self {
            Event::Early(_) | Event::Late(_) | Event::Missing(_) | Event::Extra(_, _) => true,
            Event::Kept(_) | Event::After(_) | Event::Before(_) => false,
        }
    }
}
