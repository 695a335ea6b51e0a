//! The sums of a run's counters.

ghost use Rattle.std.specs.Prelude.{◌≡◌, nat_lt, count_by};
ghost use Rattle.std.specs.List.{sum_by};
ghost use Rattle.afdx_count.specs.Counting.{capped};
ghost use Rattle.afdx_verdict.specs.Verdict.{dropped, lost, lost_at, verdict_of};

use afdx_count::{Counts, InCount, LinkTally, OutCount, PortTally};
use std::alloc::Allocator;

/// What the counters of a run come to. Each sum stays at its greatest value, as the counters do.
#[derive(Clone, Copy, Debug, PartialEq, Eq)]
pub struct RunVerdict {
    /// The links that have a policed frame.
    pub links: u64,
    /// The policed frames of all links.
    pub policed: u64,
    /// The frames that the filter dropped at any port, before an account judged them.
    pub filtered: u64,
    /// The copies that a full buffer refused or that were discarded for their age, at any port.
    pub lost: u64,
}

/// Returns how many frames of these arrivals the filter dropped.
fn dropped(count: InCount) -> u64
    ensures { result ≡ capped (dropped count) }
{
    count
        .cut
        .saturating_add(count.short)
        .saturating_add(count.long)
        .saturating_add(count.foreign)
        .saturating_add(count.no_link)
        .saturating_add(count.wrong_port)
        .saturating_add(count.too_big)
}

/// Returns how many of these copies were lost.
fn lost(count: OutCount) -> u64
    ensures { result ≡ capped (lost count) }
{
    count.full.saturating_add(count.aged)
}

/// Returns how many copies were lost at a port.
fn lost_at(port: &PortTally) -> u64
    ensures { result ≡ capped (lost_at port.now) }
{
    lost(port.high).saturating_add(lost(port.low))
}

/// Returns how many links have a policed frame.
fn policed_links(links: &[LinkTally]) -> u64
    ensures { result ≡ capped (count_by (λ l. nat_lt 0 l.count.policed) links.now) }
{
    let mut policed: u64 = 0;
    for link in links {
        policed = policed.saturating_add(u64::from(link.count.policed > 0));
    }
    policed
}

/// Returns how many frames of all links were policed.
fn policed_frames(links: &[LinkTally]) -> u64
    ensures { result ≡ capped (sum_by (λ l. l.count.policed) links.now) }
{
    let mut frames: u64 = 0;
    for link in links {
        frames = frames.saturating_add(link.count.policed);
    }
    frames
}

/// Returns how many frames the filter dropped, at all ports.
fn all_dropped(ports: &[PortTally]) -> u64
    ensures { result ≡ capped (sum_by (λ p. dropped p.input) ports.now) }
{
    let mut frames: u64 = 0;
    for port in ports {
        frames = frames.saturating_add(dropped(port.input));
    }
    frames
}

/// Returns how many copies were lost, at all ports.
fn all_lost(ports: &[PortTally]) -> u64
    ensures { result ≡ capped (sum_by lost_at ports.now) }
{
    let mut copies: u64 = 0;
    for port in ports {
        copies = copies.saturating_add(lost_at(port));
    }
    copies
}

/// Returns what the counters of a run come to. O(ports + links).
pub fn verdict<A: Allocator + Copy>(counts: &Counts<A>) -> RunVerdict
    ensures { result ≡ verdict_of counts.now }
{
    RunVerdict {
        links: policed_links(counts.links()),
        policed: policed_frames(counts.links()),
        filtered: all_dropped(counts.ports()),
        lost: all_lost(counts.ports()),
    }
}
