//! The load of a port.

ghost use Rattle.std.specs.Prelude.{◌≡◌, ◌+◌, ◌<◌, ◌≤◌, ◌^◌, []};
ghost use Rattle.afdx_load.specs.Load.{links_load, behind};
ghost use Rattle.afdx_load.specs.Inner.Adding.{with_link};
ghost use Rattle.afdx_units.specs.declared.line.Speed.{Speed};
ghost use Rattle.afdx_units.specs.Line.{greatest_size};

use crate::bursts::Bursts;
use crate::share::share_of;
use afdx_table::LinkRow;
use afdx_units::{Priority, Speed};
use std::marker::Model;

/// The load of a port: what its links may ask of its line. [`load`](crate::load) makes it. Each reader is O(1).
#[derive(Clone, Copy, Debug, PartialEq, Eq)]
pub struct Load {
    highs: u32,
    lows: u32,
    rate: u64,
    high_rate: u64,
    burst: u128,
    high_burst: u128,
    largest: u64,
    low_largest: u64,
    latency: u64,
}

impl Model for Load {
    ghost use Rattle.afdx_load.specs.Load.{Load as Seen};

    ghost Value = { Seen };

    ghost use Rattle.afdx_load.specs.Inner.Small.{IsSmall};

    ghost view = { λ l. record {
      highs = l.highs;
      lows = l.lows;
      rate = l.rate;
      high_rate = l.high_rate;
      burst = l.burst;
      high_burst = l.high_burst;
      largest = l.largest;
      low_largest = l.low_largest;
      latency = l.latency;
    } };

    ghost invariant = { λ l. IsSmall l.highs l.lows l.rate l.high_rate l.burst l.high_burst l.largest l.low_largest };

    ghost inverse = { λ s. record {
      highs = s.highs;
      lows = s.lows;
      rate = s.rate;
      high_rate = s.high_rate;
      burst = s.burst;
      high_burst = s.high_burst;
      largest = s.largest;
      low_largest = s.low_largest;
      latency = s.latency;
    } };
}

impl Load {
    /// Makes the load of no links, at a switch without latency.
    #[tactic(auto, unfolding(crate::specs::Load::links_load))]
    pub(crate) fn none() -> Load
        ensures { (speed : Speed) → result ≡ links_load speed [] }
    {
        Load {
            highs: 0,
            lows: 0,
            rate: 0,
            high_rate: 0,
            burst: 0,
            high_burst: 0,
            largest: 0,
            low_largest: 0,
            latency: 0,
        }
    }

    /// Returns the load with one more link.
    pub(crate) fn with(self, speed: Speed, link: &LinkRow) -> Load
        requires room { self.highs + self.lows < 4096 }
        requires size { link.now.max_size ≤ greatest_size }
        requires jitter { link.now.jitter ≤ 10000000 }
        ensures { result ≡ with_link speed self link.now }
    {
        let share = share_of(speed, link);
        let rate = self.rate + share.rate;
        let burst = self.burst + share.burst;
        let largest = self.largest.max(share.time);
        match link.priority {
            Priority::High => Load {
                highs: self.highs + 1,
                lows: self.lows,
                rate,
                high_rate: self.high_rate + share.rate,
                burst,
                high_burst: self.high_burst + share.burst,
                largest,
                low_largest: self.low_largest,
                latency: self.latency,
            },
            Priority::Low => Load {
                highs: self.highs,
                lows: self.lows + 1,
                rate,
                high_rate: self.high_rate,
                burst,
                high_burst: self.high_burst,
                largest,
                low_largest: self.low_largest.max(share.time),
                latency: self.latency,
            },
        }
    }

    /// Returns the same load at a switch of this latency in nanoseconds.
    pub(crate) fn behind(self, latency: u64) -> Load
        ensures { result ≡ behind latency self }
    {
        Load { latency, ..self }
    }

    /// Returns the number of its high links.
    pub fn highs(&self) -> u32
        ensures { result ≡ self.now.highs }
    {
        self.highs
    }

    /// Returns the number of its low links.
    pub fn lows(&self) -> u32
        ensures { result ≡ self.now.lows }
    {
        self.lows
    }

    /// Returns the parts of the line that all links ask for in the long run; the line has 2,048,000,000.
    pub fn rate(&self) -> u64
        ensures rate { result ≡ self.now.rate }
    {
        self.rate
    }

    /// Returns the parts of the line that the high links ask for in the long run.
    pub fn high_rate(&self) -> u64
        ensures { result ≡ self.now.high_rate }
    {
        self.high_rate
    }

    /// Returns what all links may ask for at once, in the 2,048,000,000th part of a nanosecond.
    pub fn burst(&self) -> u128
        ensures burst { result ≡ self.now.burst }
        ensures small { result ≤ 2 ^ 72 }
    {
        self.burst
    }

    /// Returns what the high links may ask for at once, in the 2,048,000,000th part of a nanosecond.
    pub fn high_burst(&self) -> u128
        ensures burst { result ≡ self.now.high_burst }
        ensures small { result ≤ 2 ^ 72 }
    {
        self.high_burst
    }

    /// Returns what its links ask for at once.
    pub fn bursts(&self) -> Bursts
        ensures all { result.all ≡ self.now.burst }
        ensures high { result.high ≡ self.now.high_burst }
        ensures all_small { result.all ≤ 2 ^ 72 }
        ensures high_small { result.high ≤ 2 ^ 72 }
    {
        Bursts {
            all: self.burst,
            high: self.high_burst,
        }
    }

    /// Returns the line time of the longest frame, in nanoseconds; 0 if there are no links.
    pub fn largest(&self) -> u64
        ensures time { result ≡ self.now.largest }
        ensures small { result ≤ 2 ^ 21 }
    {
        self.largest
    }

    /// Returns the line time of the longest low frame, in nanoseconds; 0 if there are no low links.
    pub fn low_largest(&self) -> u64
        ensures time { result ≡ self.now.low_largest }
        ensures small { result ≤ 2 ^ 21 }
    {
        self.low_largest
    }

    /// Returns the nanoseconds from a frame's arrival until its copies are queued.
    pub fn latency(&self) -> u64
        ensures { result ≡ self.now.latency }
    {
        self.latency
    }
}
