//! The line of a port, while records come over it.

ghost use Rattle.std.specs.Prelude.{◌≡◌, ◌≤◌, ◌+◌, ◌^◌, ◌++◌, ◌∷◌, [], List, length};
ghost use Rattle.std.specs.Option.{ForSome};
ghost use Rattle.afdx_units.specs.Line.{size_of};
ghost use Rattle.afdx_pcap.specs.Record.{Record};
ghost use Rattle.afdx_serial.specs.Serial.{soonest};

use afdx_merging::Head;
use afdx_network_check::STAMP_ROUNDING;
use afdx_serial::laws::soonest_instants_decide;
use afdx_units::{Speed, cost, size};
use std::alloc::Global;

/// The line of a port, over which records come.
#[derive(Clone, Copy)]
pub(crate) struct Line {
    speed: Speed,
    /// The instant, in nanoseconds, at which the last frame can have come at the soonest; none before the first.
    came: Option<u64>,
    /// The number of the first record that came too soon for the line, if there is one.
    pub(crate) breach: Option<u64>,
    ghost early: { ForSome came (λ c. c ≤ 2 ^ 63) },
}

impl Line {
    ghost use Rattle.afdx_network.specs.Inner.OneLine.{HasBrought};

    /// Makes a line over which nothing has come.
    pub(crate) fn new(speed: Speed) -> Line
        ensures speed { result.speed ≡ speed }
        ensures none { HasBrought result [] }
    {
        Line {
            speed,
            came: None,
            breach: None,
        }
    }

    /// Finds the instant at which a frame of so many captured bytes with this stamp can have come at the soonest: as its stamp says, or when
    /// the line has brought it after the frame before. O(1).
    fn soonest(&self, stamp: u64, bytes: usize) -> u64
        requires { bytes ≤ 262144 }
        ensures { result ≡ soonest self.now.speed self.now.came (record { stamp = stamp; size = size_of bytes }) }
    {
        match self.came {
            None => stamp,
            Some(came) => stamp.max(came + cost(self.speed, size(bytes as u32))),
        }
    }

    /// Takes one more record, with its number among those of its capture. O(1).
    pub(crate) fn meet(&mut self, head: &Head<Global>)
        ensures speed { self.new.speed ≡ self.old.speed }
        ensures come { (records : List Record) → head.now.number ≡ length records + 1 → HasBrought self.old records
            → HasBrought self.new (records ++ head.now.frame ∷ []) }
    {
        soonest_instants_decide();
        if self.breach.is_some() {
            return;
        }
        let mark = head.mark();
        let stamp = mark.stamp.ns();
        let soonest = self.soonest(stamp, head.frame().bytes().len());
        if soonest <= stamp + u64::from(STAMP_ROUNDING) {
            self.came = Some(soonest);
        } else {
            self.breach = Some(mark.number);
        }
    }
}
