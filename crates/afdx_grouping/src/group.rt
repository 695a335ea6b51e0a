//! What the links of a group ask of a line, and the curves that follow.

ghost use Rattle.std.specs.Prelude.{◌≡◌, ℕ, ◌+◌, ◌*◌, ◌<◌, ◌≤◌, ◌^◌, [], length, slice_index_or};
ghost use Rattle.afdx_units.specs.Line.{greatest_size};
ghost use Rattle.afdx_units.specs.declared.line.Speed.{Speed};
ghost use Rattle.afdx_table.specs.WellFormed.{IsLink};
ghost use Rattle.afdx_grouping.specs.Groups.{asked_by, group_of, goes_over, group_at, line_weight, curve_of, all_curve, high_curve};
ghost use Rattle.afdx_grouping.specs.Scatter.{later};
ghost use Rattle.afdx_grouping.specs.Adding.{asked_with, high_with, group_with, group_added, IsSmall};

use crate::curve::{Curve, Straight};
use afdx_load::{PARTS, Share, share_of};
use afdx_table::{LinkRow, PortRow, Table};
use afdx_units::{Priority, Speed, cost};
use std::marker::Model;

/// What some links ask of a line.
#[derive(Clone, Copy)]
struct Asked {
    /// At once, in parts of a nanosecond.
    burst: u128,
    /// In each nanosecond.
    rate: u64,
    /// The bytes of their largest frame, 0 if there are none.
    largest: u32,
}

impl Model for Asked {
    ghost use Rattle.std.specs.Prelude.{◌≤◌, ◌^◌};
    ghost use Rattle.afdx_units.specs.Line.{greatest_size};
    ghost use Rattle.afdx_grouping.specs.Groups.{Asked as Seen};

    ghost Value = { Seen };

    ghost view = { λ a. record { burst = a.burst; rate = a.rate; largest = a.largest } };

    ghost invariant = { λ a. (a.burst ≤ 2 ^ 72) × (a.rate ≤ 2 ^ 44) × (a.largest ≤ greatest_size) };

    ghost inverse = { λ a. record { burst = a.burst; rate = a.rate; largest = a.largest } };
}

/// What all links of a group ask, and the high ones.
#[derive(Clone, Copy)]
pub(crate) struct Group {
    all: Asked,
    high: Asked,
}

impl Model for Group {
    ghost use Rattle.afdx_grouping.specs.Groups.{Group as Seen};

    ghost Value = { Seen };

    ghost view = { λ g. record { all = g.all; high = g.high } };

    ghost inverse = { λ g. record { all = g.all; high = g.high } };
}

/// A line over which frames are known to come one after the other: its speed, and by how many nanoseconds their stamps may be rounded
/// down.
#[derive(Clone, Copy)]
pub(crate) struct KnownLine {
    pub(crate) speed: Speed,
    pub(crate) rounding: u16,
}

impl Model for KnownLine {
    ghost use Rattle.afdx_serial.specs.Serial.{KnownLine as Seen};

    ghost Value = { Seen };

    ghost view = { λ l. record { speed = l.speed; rounding = l.rounding } };

    ghost inverse = { λ l. record { speed = l.speed; rounding = l.rounding } };
}

/// Returns the parts of a nanosecond of line time here that a nanosecond of a line there brings.
fn line_weight(here: Speed, there: Speed) -> u64
    ensures weight { result ≡ line_weight here there }
    ensures small { result ≤ 2 ^ 38 }
{
    PARTS * here.tick() / there.tick()
}

impl Asked {
    /// Makes what no links ask of a line: nothing.
    fn none() -> Asked
        ensures { (here : Speed) → result ≡ asked_by here [] }
    {
        Asked {
            burst: 0,
            rate: 0,
            largest: 0,
        }
    }

    /// Adds what one more link asks.
    fn with(self, here: Speed, link: &LinkRow) -> Asked
        requires burst { self.burst ≤ 4095 * 2 ^ 60 }
        requires rate { self.rate ≤ 4095 * 2 ^ 32 }
        requires size { link.now.max_size ≤ greatest_size }
        requires jitter { link.now.jitter ≤ 10000000 }
        ensures more { result ≡ asked_with here link.now self }
        ensures burst { result.burst ≤ self.burst + 2 ^ 60 }
        ensures rate { result.rate ≤ self.rate + 2 ^ 32 }
    {
        let share = share_of(here, link);
        Asked {
            burst: self.burst + share.burst,
            rate: self.rate + share.rate,
            largest: self.largest.max(link.max_size),
        }
    }

    /// Adds what one more link asks, if it is a high one.
    fn with_high(self, here: Speed, link: &LinkRow) -> Asked
        requires burst { self.burst ≤ 4095 * 2 ^ 60 }
        requires rate { self.rate ≤ 4095 * 2 ^ 32 }
        requires size { link.now.max_size ≤ greatest_size }
        requires jitter { link.now.jitter ≤ 10000000 }
        ensures more { result ≡ high_with here link.now self }
        ensures burst { result.burst ≤ self.burst + 2 ^ 60 }
        ensures rate { result.rate ≤ self.rate + 2 ^ 32 }
    {
        match link.priority {
            Priority::High => self.with(here, link),
            Priority::Low => self,
        }
    }

    /// Makes the curve of what the links are paid for and, if the line there is kept to, of what it brings of them with so many
    /// parts beside. Both count in a window that is longer by so many nanoseconds.
    fn curve(self, here: Speed, line: &Option<KnownLine>, spare: u128, scatter: u64) -> Curve
        requires spare { spare ≤ 2 ^ 72 }
        requires scatter { scatter ≤ 100000 }
        ensures { result ≡ later scatter (curve_of here line.now spare self) }
    {
        let scatter = u128::from(scatter);
        let paid = Straight {
            burst: self.burst + u128::from(self.rate) * scatter,
            rate: self.rate,
        };
        let brought = match line {
            Some(line) => {
                let weight = line_weight(here, line.speed);
                let first = u128::from(cost(line.speed, self.largest)) + u128::from(line.rounding);
                Some(Straight {
                    burst: u128::from(weight) * first + spare + u128::from(weight) * scatter,
                    rate: weight,
                })
            }
            None => None,
        };
        Curve { paid, brought }
    }
}

impl Group {
    /// Makes the group of no links.
    fn none() -> Group
        ensures { (here : Speed) → result ≡ group_of here [] }
    {
        Group {
            all: Asked::none(),
            high: Asked::none(),
        }
    }

    /// Adds one more link to the group.
    fn with(self, here: Speed, link: &LinkRow) -> Group
        requires room { IsSmall 4095 self }
        requires size { link.now.max_size ≤ greatest_size }
        requires jitter { link.now.jitter ≤ 10000000 }
        ensures more { result ≡ group_with here link.now self }
        ensures small { (links : ℕ) → IsSmall links self → IsSmall (links + 1) result }
    {
        Group {
            all: self.all.with(here, link),
            high: self.high.with_high(here, link),
        }
    }

    /// Adds a link to the group, if it comes in at one port and leads to another.
    fn added(self, from: u8, to: &PortRow, link: &LinkRow) -> Group
        requires room { IsSmall 4095 self }
        requires size { link.now.max_size ≤ greatest_size }
        requires jitter { link.now.jitter ≤ 10000000 }
        ensures added { result ≡ group_added from to.now link.now self }
        ensures small { (links : ℕ) → IsSmall links self → IsSmall (links + 1) result }
    {
        if goes_over(link, from, to.id) {
            self.with(to.speed, link)
        } else {
            self
        }
    }

    /// Makes the curve of what all links of the group can bring, over this line if it is kept to, with latencies that differ by
    /// so many nanoseconds.
    pub(crate) fn all_curve(self, here: Speed, line: &Option<KnownLine>, scatter: u64) -> Curve
        requires { scatter ≤ 100000 }
        ensures { result ≡ later scatter (all_curve here line.now self) }
    {
        self.all.curve(here, line, self.high.burst, scatter)
    }

    /// Makes the curve of what the high links of the group can bring, in the same way.
    pub(crate) fn high_curve(self, here: Speed, line: &Option<KnownLine>, scatter: u64) -> Curve
        requires { scatter ≤ 100000 }
        ensures { result ≡ later scatter (high_curve here line.now self) }
    {
        self.high.curve(here, line, 0, scatter)
    }
}

/// Returns the link at a place in file order.
fn link_at(table: &Table, index: usize) -> &LinkRow
    requires { index < length table.now.links }
    ensures link { result.now ≡ slice_index_or table.now.links index result.now }
    ensures limits { IsLink table.now.ports result.now }
{
    table.link_at(index).unwrap()
}

/// Returns whether a link comes in at one port and leads to another.
fn goes_over(link: &LinkRow, from: u8, to: u8) -> bool
    ensures { result ≡ goes_over from to link.now }
{
    link.from == from && link.to.as_slice().contains(&to)
}

/// Makes the group of the links that come in at a port and lead to another. O(links).
pub(crate) fn group_at(table: &Table, from: u8, to: &PortRow) -> Group
    ensures { result ≡ group_at table.now.links from to.now }
{
    let mut group = Group::none();
    for index in 0..table.link_count() {
        group = group.added(from, to, link_at(table, index));
    }
    group
}
