//! Curves, and how far they are above a line.

ghost use Rattle.std.specs.Prelude.{◌≡◌, ◌≤◌, ◌^◌, ◌*◌, ◌/◌, length, sum_by};
ghost use Rattle.std.specs.Int.{abs_diff};
ghost use Rattle.afdx_serial.specs.Curves.{straight_at, curve_at};
ghost use Rattle.afdx_grouping.specs.Burst.{turn_of, above, most_above, paid_burst, paid_rate, least_burst, IsLeastBurst};

use crate::laws::bursts_are_least;
use std::marker::Model;

/// The most curves of a sum: as many as a table has ports.
pub(crate) const MOST_CURVES: usize = 24;

/// A straight line: so many parts of a nanosecond at once, at most 2^73, and so many more in each nanosecond, at most 2^44.
#[derive(Clone, Copy, Default)]
pub(crate) struct Straight {
    pub(crate) burst: u128,
    pub(crate) rate: u64,
}

impl Model for Straight {
    ghost use Rattle.std.specs.Prelude.{◌≤◌, ◌^◌};
    ghost use Rattle.afdx_serial.specs.Curves.{Straight as Seen};

    ghost Value = { Seen };

    ghost view = { λ s. record { burst = s.burst; rate = s.rate } };

    ghost invariant = { λ s. (s.burst ≤ 2 ^ 73) × (s.rate ≤ 2 ^ 44) };

    ghost inverse = { λ s. record { burst = s.burst; rate = s.rate } };
}

/// The lesser of what is paid for and, if that is known, of what a line brings.
#[derive(Clone, Copy, Default)]
pub(crate) struct Curve {
    pub(crate) paid: Straight,
    pub(crate) brought: Option<Straight>,
}

impl Model for Curve {
    ghost use Rattle.afdx_serial.specs.Curves.{Curve as Seen};

    ghost Value = { Seen };

    ghost view = { λ c. record { paid = c.paid; brought = c.brought } };

    ghost inverse = { λ c. record { paid = c.paid; brought = c.brought } };
}

impl Straight {
    /// Returns the line's value in a window of so many nanoseconds.
    fn at(self, window: u128) -> u128
        requires { window ≤ 2 ^ 74 }
        ensures value { result ≡ straight_at self window }
        ensures small { result ≤ 2 ^ 119 }
    {
        self.burst + u128::from(self.rate) * window
    }

    /// Returns the window after which two lines cross, if they do.
    fn crossing(self, other: Straight) -> u128
        ensures value { result ≡ abs_diff self.burst other.burst / abs_diff self.rate other.rate }
        ensures small { result ≤ 2 ^ 73 }
    {
        let apart = self.burst.abs_diff(other.burst);
        let faster = self.rate.abs_diff(other.rate);
        apart.checked_div(u128::from(faster)).unwrap_or(0)
    }
}

impl Curve {
    /// Returns the curve's value in a window of so many nanoseconds.
    fn at(&self, window: u128) -> u128
        requires { window ≤ 2 ^ 74 }
        ensures value { result ≡ curve_at self.now window }
        ensures small { result ≤ 2 ^ 119 }
    {
        let paid = self.paid.at(window);
        match self.brought {
            Some(brought) => paid.min(brought.at(window)),
            None => paid,
        }
    }

    /// Returns the window after which the curve turns.
    fn turn(&self) -> u128
        ensures value { result ≡ turn_of self.now }
        ensures small { result ≤ 2 ^ 73 }
    {
        match self.brought {
            Some(brought) => self.paid.crossing(brought),
            None => 0,
        }
    }
}

/// Returns what all curves come to in a window of so many nanoseconds.
fn sum_at(curves: &[Curve], window: u128) -> u128
    requires few { length curves.now ≤ 24 }
    requires small { window ≤ 2 ^ 74 }
    ensures sum { result ≡ sum_by (λ c. curve_at c window) curves.now }
    ensures limit { result ≤ 24 * 2 ^ 119 }
{
    let mut sum = 0;
    for curve in curves {
        sum += curve.at(window);
    }
    sum
}

/// Returns by how much, in this window, the curves are above a line of so many parts in each nanosecond.
#[tactic(auto, unfolding(crate::specs::Burst::above))]
fn above(parts: u64, curves: &[Curve], window: u128) -> u128
    requires line { parts ≤ 2 ^ 32 }
    requires few { length curves.now ≤ 24 }
    requires small { window ≤ 2 ^ 74 }
    ensures { result ≡ above parts curves.now window }
{
    sum_at(curves, window).saturating_sub(u128::from(parts) * window)
}

/// Returns what the curves' links pay for at once.
fn paid_burst(curves: &[Curve]) -> u128
    requires few { length curves.now ≤ 24 }
    ensures paid { result ≡ paid_burst curves.now }
    ensures small { result ≤ 2 ^ 78 }
{
    let mut sum = 0;
    for curve in curves {
        sum += curve.paid.burst;
    }
    sum
}

/// Returns the most by which the curves are above the line at the beginning or beside a turn.
fn most_above(parts: u64, curves: &[Curve]) -> u128
    requires line { parts ≤ 2 ^ 32 }
    requires few { length curves.now ≤ 24 }
    ensures { result ≡ most_above parts curves.now }
{
    let mut most = above(parts, curves, 0);
    for curve in curves {
        let turn = curve.turn();
        most = most
            .max(above(parts, curves, turn))
            .max(above(parts, curves, turn + 1));
    }
    most
}

/// Returns the least burst that is enough for these curves beside a line of so many parts in each nanosecond, if no more is
/// paid for in the long run; else what is found in the same way. It is never more than what is paid for at once.
///
/// O(c^2) for c curves.
pub(crate) fn least_burst(parts: u64, curves: &[Curve]) -> u128
    requires line { parts ≤ 2 ^ 32 }
    requires few { length curves.now ≤ 24 }
    ensures found { result ≡ least_burst parts curves.now }
    ensures least { paid_rate curves.now ≤ parts → IsLeastBurst parts result curves.now }
    ensures most { result ≤ paid_burst curves.now }
    ensures small { result ≤ 2 ^ 78 }
{
    bursts_are_least();
    paid_burst(curves).min(most_above(parts, curves))
}
