//! A link at all its output ports.

ghost use Rattle.std.specs.Prelude.{◌≡◌, ◌==◌, ◌≤◌, ◌<◌, nat_le, true, false, length, option_map, slice_get, IfSome, OnErr, OnOk};
ghost use Rattle.std.specs.List.{AllByRecursion, position};
ghost use Rattle.afdx_account.specs.Account.{account_terms};
ghost use Rattle.afdx_following.specs.Output.{IsFresh, left_by};
ghost use Rattle.afdx_following.specs.Watched.{at_first, conforms, frame_size, Fits, with_own, left_by_at, with_record, with_ends, HasFailed};

use crate::output::Output;
use crate::watched::Watched;
use afdx_account::Account;
use afdx_levels::MAX_TOLERANCE;
use afdx_pairing::Numbered;
use afdx_units::Stamp;
use std::alloc::{AllocError, Allocator};
use std::marker::Model;

/// One link at a watched switch: it takes the link's own frames and the records that left for the link at each of its ports. They come in order:
/// frames by the instants at which they came, records by the latest instants at which they left by the stamps (profile).
///
/// It tells by what is known of the account which frames were passed; an unsure one was passed if a record within its bounds has its bytes, at any
/// port. It holds the frames of the last two bounds, and the records that wait for one, of one bound.
///
/// Once [`Following::came`], [`Following::left`] or [`Following::end`] fails, as it does if memory runs out, nothing is said of what it has noted:
/// all later ones of these calls fail, and change nothing. Contracts see whether one has failed.
#[derive(Drop)]
pub struct Following<'a, A: Allocator> {
    link: Watched<'a, A>,
    failed: bool,
}

impl<'a, A: Allocator> Model for Following<'a, A> {
    ghost use Rattle.std.specs.Prelude.{◌≡◌, false};
    ghost use Rattle.afdx_following.specs.Watched.{Watched as Seen};
    ghost use Rattle.afdx_following.specs.Inner.InStep.{IsInStep};

    ghost Value = { Seen };

    ghost view = { λ f. record f.link { failed = f.failed } };

    ghost invariant = { λ f. f.failed ≡ false → IsInStep f.link };
}

impl<'a, A: Allocator + Copy> Following<'a, A> {
    /// Makes a link at these ports, of which nothing came or left, policed as this account polices. The account was full or, if there is an instant,
    /// nothing is known of it then. Stamps may be off by the tolerance in nanoseconds, at most a second. It takes no memory. O(1).
    pub fn new(
        alloc: A,
        account: Account,
        tolerance: u64,
        since: Option<Stamp>,
        outputs: Vec<Output<'a, A>, A>,
    ) -> Following<'a, A>
        requires tolerance { tolerance ≤ MAX_TOLERANCE }
        requires fresh { AllByRecursion IsFresh outputs.items }
        ensures { result ≡ at_first account tolerance since outputs.entry.items }
    {
        Following {
            link: Watched::new(alloc, account, tolerance, since, outputs),
            failed: false,
        }
    }

    /// Returns its ports. O(1).
    pub fn outputs(&self) -> &[Output<'a, A>]
        ensures { result.now ≡ self.now.outputs }
    {
        &self.link.outputs
    }

    /// Returns the place of the port of a number among the link's ports; none if it has no such port. O(ports).
    pub fn place_of(&self, port: u8) -> Option<usize>
        ensures place { result ≡ position (λ o. o.port == port) self.now.outputs }
        ensures some { IfSome result (λ place. place < length self.now.outputs) }
    {
        self.link.place_of(port)
    }

    /// Returns how many frames may have been passed and may have been policed, as far as was known when they came. O(1).
    pub fn unsure(&self) -> u64
        ensures { result ≡ self.now.unsure }
    {
        self.link.unsure
    }

    /// Returns the instant, in nanoseconds, of the last frame or record that was taken. O(1).
    pub fn latest(&self) -> u128
        ensures { result ≡ self.now.latest }
    {
        self.link.latest
    }

    /// Returns whether a frame is one that the link may send: its account, if full, passes it. O(1).
    pub fn fits(&self, frame: &Numbered<'a, A>) -> bool
        ensures { result ≡ nat_le ((account_terms self.now.account).price (frame_size frame.now)) (account_terms self.now.account).cap }
    {
        self.link.fits(frame)
    }

    /// Returns whether nothing speaks against the switch. O(ports).
    pub fn conforms(&self) -> bool
        ensures { result ≡ conforms self.now }
    {
        self.link
            .outputs
            .iter()
            .all(|output| output.tally().conforms())
    }

    /// Takes a frame that came, and that the link may send. O(bytes * log of what is held) for each port of the link, beside what it decides of
    /// frames and records before it, each once.
    pub fn came(&mut self, frame: Numbered<'a, A>) -> Result<(), AllocError>
        requires in_order { self.old.latest ≤ frame.frame.stamp }
        requires fits { Fits self.old.account frame }
        ensures going { OnOk result (self.old.failed ≡ false) }
        ensures ok { OnOk result (self.new ≡ with_own frame.entry self.old) }
        ensures err { OnErr result (HasFailed self.old self.new) }
    {
        begin(&mut self.failed)?;
        self.link.came(frame)?;
        self.failed = false;
        Ok(())
    }

    /// Returns the latest instant, in nanoseconds, at which by the stamps the line was free again after a record at the port at a place; none if
    /// there is no such place. O(1).
    pub fn left_by(&self, place: usize, left: &Numbered<'a, A>) -> Option<u128>
        ensures by { result ≡ option_map (λ o. left_by left.now o) (slice_get self.now.outputs place) }
        ensures there { IfSome result (λ at. place < length self.now.outputs) }
        ensures at { IfSome result (λ at. at ≡ left_by_at place left.now self.now) }
    {
        self.link.left_by(place, left)
    }

    /// Takes a record that left at the port at a place. O(bytes * log of what is held), and O(log of what is held) for each port of the link, beside
    /// what it decides of frames and records before it, each once.
    pub fn left(&mut self, place: usize, left: Numbered<'a, A>) -> Result<(), AllocError>
        requires place { place < length self.old.outputs }
        requires in_order { self.old.latest ≤ left_by_at place left self.old }
        ensures going { OnOk result (self.old.failed ≡ false) }
        ensures ok { OnOk result (self.new ≡ with_record place left.entry self.old) }
        ensures err { OnErr result (HasFailed self.old self.new) }
    {
        begin(&mut self.failed)?;
        self.link.left(place, left)?;
        self.failed = false;
        Ok(())
    }

    /// Ends the link once all frames and records were taken. Records were recorded up to an instant in nanoseconds or, if there is none, all had
    /// left. O(bytes * log of what is held) for each record that is held, and for each frame at each port.
    pub fn end(&mut self, last: Option<u64>) -> Result<(), AllocError>
        ensures going { OnOk result (self.old.failed ≡ false) }
        ensures ok { OnOk result (self.new ≡ with_ends last self.old) }
        ensures err { OnErr result (HasFailed self.old self.new) }
    {
        begin(&mut self.failed)?;
        self.link.end(last)?;
        self.failed = false;
        Ok(())
    }
}

/// Notes that a call has begun; it counts as failed until it ends. An error says that one failed before.
fn begin(failed: &mut bool) -> Result<(), AllocError>
    ensures before { OnOk result (failed.old ≡ false) }
    ensures now { failed.new ≡ true }
{
    if *failed {
        return Err(AllocError);
    }
    *failed = true;
    Ok(())
}
