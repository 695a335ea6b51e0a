//! What ports answer to an arrival.

ghost use Rattle.std.specs.Prelude.{◌≡◌, ◌<◌, ◌∷◌, [], ◌++◌, length, slice_get};
ghost use Rattle.afdx_core.specs.Inner.Offers.{bit_of, answer_of_bit};

use afdx_port::Offer;
use std::marker::Model;

/// Ports with the answer of each, in the order in which they were asked; at most 24, as a switch has no more.
///
/// Contracts see the list of these pairs. The answers are the bits of one number: so the value is smaller than a list of pairs, and who
/// takes it apart holds them in a register.
#[derive(Debug, Drop)]
pub struct Offers {
    ports: [u8; 24],
    len: usize,
    /// Bit 0 is for the first port: 1 if it answered `Full`.
    full: u32,
}

impl Model for Offers {
    ghost use Rattle.std.specs.Prelude.{ℕ, List, take};
    ghost use Rattle.afdx_port.specs.declared.Offer.{Offer as Answer};
    ghost use Rattle.afdx_core.specs.Inner.Offers.{answered, AreKept};

    ghost Value = { List (ℕ × Answer) };

    ghost view = { λ o. answered o.full 0 (take o.len o.ports) };

    ghost invariant = { λ o. AreKept o.ports o.len o.full };
}

/// Returns the bit of an answer.
#[inline(always)]
fn bit_of(offer: Offer) -> u32
    ensures { result ≡ bit_of offer }
{
    match offer {
        Offer::Queued => 0,
        Offer::Full => 1,
    }
}

/// Returns the answer that a bit stands for.
#[inline(always)]
fn answer_of(bit: u32) -> Offer
    ensures { result ≡ answer_of_bit bit }
{
    if bit == 1 { Offer::Full } else { Offer::Queued }
}

impl Offers {
    /// Makes a list without ports. O(1).
    #[inline(always)]
    pub fn new() -> Offers
        ensures { result ≡ [] }
    {
        Offers {
            ports: [0; 24],
            len: 0,
            full: 0,
        }
    }

    /// Makes a copy. O(1).
    #[inline(always)]
    pub fn copied(&self) -> Offers
        ensures { result ≡ self.now }
    {
        Offers {
            ports: self.ports,
            len: self.len,
            full: self.full,
        }
    }

    /// Adds a port with its answer. O(1).
    #[inline(always)]
    pub fn push(&mut self, port: u8, offer: Offer)
        requires { length self.old < 24 }
        ensures { self.new ≡ self.old ++ (port, offer) ∷ [] }
    {
        let place = self.len;
        self.ports[place] = port;
        self.full |= bit_of(offer) << place;
        self.len = place + 1;
    }

    /// Returns how many ports there are. O(1).
    #[inline(always)]
    pub fn len(&self) -> usize
        ensures { result ≡ length self.now }
    {
        self.len
    }

    /// Returns the port at a place, from 0, with its answer; none if there are not so many. O(1).
    #[inline(always)]
    pub fn get(&self, place: usize) -> Option<(u8, Offer)>
        ensures { result ≡ slice_get self.now place }
    {
        if place < self.len {
            Some((self.ports[place], answer_of(self.full >> place & 1)))
        } else {
            None
        }
    }
}
