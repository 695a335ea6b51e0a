//! A link at all its output ports, step by step.

ghost use Rattle.std.specs.Prelude.{◌≡◌, ◌==◌, ◌≤◌, ◌<◌, nat_le, ◌∷◌, List, None, Some, map, length, option_map, slice_get, IfOk, IfSome, IsTrue, OnOk};
ghost use Rattle.std.specs.Bool.{OnTrue, OnFalse};
ghost use Rattle.std.specs.List.{AllByRecursion, list_all, list_any, position};
ghost use Rattle.std.specs.Option.{option_map_or};
ghost use Rattle.afdx_account.specs.Account.{account_terms};
ghost use Rattle.afdx_levels.specs.Levels.{may_be, fate_told};
ghost use Rattle.afdx_pairing.specs.Events.{Numbered as Seen};
ghost use Rattle.afdx_following.specs.Output.{has, is_over, left_by, HasComeBy, with_came, paired_up_to, gone_on, with_end};
ghost use Rattle.afdx_following.specs.Watched.{levels_at_first, at_first, frame_size, Fits, levels_at, outlook_at, can_tell, counted, with_fate, first_told, decided};
ghost use Rattle.afdx_following.specs.Watched.{first_unknown, settled_by, with_own, left_by_at, with_record, with_ends};
ghost use Rattle.afdx_following.specs.Inner.InStep.{IsInStep};

use crate::output::Output;
use crate::tally::up;
use afdx_account::{Account, Meter};
use afdx_levels::laws::told_is_allowed;
use afdx_levels::{Levels, MAX_TOLERANCE, Outlook};
use afdx_pairing::Numbered;
use afdx_units::Stamp;
use std::alloc::{AllocError, Allocator};
use std::collections::VecDeque;
use std::marker::Model;

/// One link at a watched switch, between calls that do not fail.
#[derive(Drop)]
pub(crate) struct Watched<'a, A: Allocator> {
    /// An account of the link, of which the terms alone count.
    account: Account,
    /// By how many nanoseconds stamps may be off.
    tolerance: u64,
    levels: Levels,
    undecided: VecDeque<Numbered<'a, A>, A>,
    pub(crate) outputs: Vec<Output<'a, A>, A>,
    pub(crate) unsure: u64,
    /// The instant of the last frame or record that was taken.
    pub(crate) latest: u128,
}

impl<'a, A: Allocator> Model for Watched<'a, A> {
    ghost use Rattle.std.specs.Prelude.{false};
    ghost use Rattle.afdx_following.specs.Watched.{Watched as Seen};

    ghost Value = { Seen };

    ghost view = { λ f. record {
      account = f.account;
      tolerance = f.tolerance;
      levels = f.levels;
      undecided = f.undecided.items;
      outputs = f.outputs.items;
      unsure = f.unsure;
      latest = f.latest;
      failed = false;
    } };
}

/// Returns what is known of an account at first: it was full or, if there is an instant, nothing is known of it then.
fn levels_at_first(account: &Account, tolerance: u64, since: &Option<Stamp>) -> Levels
    requires { tolerance ≤ MAX_TOLERANCE }
    ensures { result ≡ levels_at_first account.now tolerance since.now }
{
    match *since {
        None => Levels::at_rest(account, tolerance),
        Some(since) => Levels::unknown(account, tolerance, since),
    }
}

/// Returns the instant, in nanoseconds, from which on a link is watched.
fn first_instant(since: &Option<Stamp>) -> u128
    ensures { result ≡ option_map_or (λ at. at) since.now 0 }
{
    match *since {
        None => 0,
        Some(since) => u128::from(since.ns()),
    }
}

/// Returns the count of unsure frames, with one more if a frame is unsure.
fn counted(outlook: Outlook, count: u64) -> u64
    ensures { result ≡ counted outlook count }
{
    match outlook {
        Outlook::Must => count,
        Outlook::Never => count,
        Outlook::Unsure => up(count),
    }
}

impl<'a, A: Allocator + Copy> Watched<'a, A> {
    /// Makes a link at these ports, of which nothing came or left. It takes no memory.
    pub(crate) fn new(
        alloc: A,
        account: Account,
        tolerance: u64,
        since: Option<Stamp>,
        outputs: Vec<Output<'a, A>, A>,
    ) -> Watched<'a, A>
        requires { tolerance ≤ MAX_TOLERANCE }
        ensures { result ≡ at_first account tolerance since outputs.entry.items }
    {
        let levels = levels_at_first(&account, tolerance, &since);
        let latest = first_instant(&since);
        Watched {
            account,
            tolerance,
            levels,
            undecided: VecDeque::new(alloc),
            outputs,
            unsure: 0,
            latest,
        }
    }

    /// Returns whether a frame is one that the link may send.
    pub(crate) fn fits(&self, frame: &Numbered<'a, A>) -> bool
        ensures { result ≡ nat_le ((account_terms self.now.account).price (frame_size frame.now)) (account_terms self.now.account).cap }
    {
        let size = frame.size();
        self.account.price(size) <= self.account.cap()
    }

    /// Returns the place of the port of a number among the link's ports; none if it has no such port.
    pub(crate) fn place_of(&self, port: u8) -> Option<usize>
        ensures place { result ≡ position (λ o. o.port == port) self.now.outputs }
        ensures some { IfSome result (λ place. place < length self.now.outputs) }
    {
        place_in(&self.outputs, port)
    }

    /// Returns the latest instant at which by the stamps the line was free again after a record at the port at a place; none if there is no such
    /// place.
    pub(crate) fn left_by(&self, place: usize, left: &Numbered<'a, A>) -> Option<u128>
        ensures by { result ≡ option_map (λ o. left_by left.now o) (slice_get self.now.outputs place) }
        ensures there { IfSome result (λ at. place < length self.now.outputs) }
        ensures at { IfSome result (λ at. at ≡ left_by_at place left.now self.now) }
    {
        match self.outputs.get(place) {
            Some(output) => Some(output.left_by(left)),
            None => None,
        }
    }

    /// Takes a frame that came.
    pub(crate) fn came(&mut self, frame: Numbered<'a, A>) -> Result<(), AllocError>
        requires in_step { IsInStep self.old }
        requires in_order { self.old.latest ≤ frame.frame.stamp }
        requires fits { Fits self.old.account frame }
        ensures ok { OnOk result (self.new ≡ with_own frame.entry self.old) }
        ensures in_step { OnOk result (IsInStep self.new) }
    {
        let at = u128::from(frame.stamp().ns());
        self.undecided.push_back(frame)?;
        self.latest = at;
        self.settle(Some(at))
    }

    /// Takes a record that left at the port at a place.
    pub(crate) fn left(&mut self, place: usize, left: Numbered<'a, A>) -> Result<(), AllocError>
        requires in_step { IsInStep self.old }
        requires place { place < length self.old.outputs }
        requires in_order { self.old.latest ≤ left_by_at place left self.old }
        ensures ok { OnOk result (self.new ≡ with_record place left.entry self.old) }
        ensures in_step { OnOk result (IsInStep self.new) }
    {
        let at = self.outputs[place].left_by(&left);
        let by = self.outputs[place].stamped_by(&left);
        self.outputs[place].left(left)?;
        self.latest = at;
        self.settle(Some(by))
    }

    /// Ends the link once all frames and records were taken.
    pub(crate) fn end(&mut self, last: Option<u64>) -> Result<(), AllocError>
        requires { IsInStep self.old }
        ensures ok { OnOk result (self.new ≡ with_ends last self.old) }
        ensures in_step { OnOk result (IsInStep self.new) }
    {
        self.settle(None)?;
        end_all(&mut self.outputs, last)
    }

    /// Decides fates and pairs records as far as these follow from what came and left before an instant or, if there is none, from all.
    fn settle(&mut self, at: Option<u128>) -> Result<(), AllocError>
        requires { IsInStep self.old }
        ensures ok { OnOk result (self.new ≡ settled_by at self.old) }
        ensures in_step { OnOk result (IsInStep self.new) }
    {
        self.decide_all(at)?;
        let unknown = self.first_unknown();
        pair_all(&mut self.outputs, unknown)?;
        match at {
            Some(at) => go_on_all(&mut self.outputs, at),
            None => Ok(()),
        }
    }

    /// Returns the instant of the first frame whose fate is not told; none if there is none.
    fn first_unknown(&self) -> Option<u128>
        ensures { result ≡ first_unknown self.now.undecided }
    {
        match self.undecided.front() {
            Some(frame) => Some(u128::from(frame.stamp().ns())),
            None => None,
        }
    }

    /// Decides the fates of frames as far as they can be told one by one.
    fn decide_all(&mut self, at: Option<u128>) -> Result<(), AllocError>
        requires { IsInStep self.old }
        ensures { OnOk result (self.new ≡ decided at self.old.undecided self.old) }
    {
        for _ in 0..self.undecided.len() {
            if !self.decide_next(at)? {
                return Ok(());
            }
        }
        Ok(())
    }

    /// Decides the fate of the first frame that waits for it, if it can be told. Returns whether it was.
    fn decide_next(&mut self, at: Option<u128>) -> Result<bool, AllocError>
        requires { IsInStep self.old }
        ensures more { IfOk result (λ more. OnTrue more (first_told at self.old.undecided self.old ≡ Some self.new)) }
        ensures none { IfOk result (λ more. OnFalse more (first_told at self.old.undecided self.old ≡ None)) }
        ensures same { IfOk result (λ more. OnFalse more (self.new ≡ self.old)) }
    {
        told_is_allowed();
        let Some(frame) = self.undecided.front() else {
            return Ok(false);
        };
        let outlook = self.outlook(frame);
        if !self.can_tell(at, outlook, frame) {
            return Ok(false);
        }
        let passes = self.fate(outlook, frame);
        self.unsure = counted(outlook, self.unsure);
        self.decide(passes)?;
        Ok(true)
    }

    /// Returns what the account may do with a frame. It comes no sooner than the one of which the account was last told.
    fn outlook(&self, frame: &Numbered<'a, A>) -> Outlook
        requires bounded { self.now.tolerance ≤ MAX_TOLERANCE }
        requires in_order { self.now.levels.since ≤ frame.now.frame.stamp }
        ensures outlook { result ≡ outlook_at self.now frame.now }
        ensures known { self.now.levels.least ≤ self.now.levels.most }
    {
        let size = frame.size();
        self.levels
            .outlook(&self.account, self.tolerance, frame.stamp(), size)
    }

    /// Returns whether a frame's fate can be told by what left before an instant or, if there is none, by all.
    fn can_tell(&self, at: Option<u128>, outlook: Outlook, frame: &Numbered<'a, A>) -> bool
        ensures { result ≡ can_tell at self.now.outputs frame.now outlook }
    {
        match outlook {
            Outlook::Must => true,
            Outlook::Never => true,
            Outlook::Unsure => match at {
                Some(at) => are_over(&self.outputs, frame, at),
                None => true,
            },
        }
    }

    /// Returns a frame's fate: an unsure one was passed if a record at any port may be of it.
    fn fate(&self, outlook: Outlook, frame: &Numbered<'a, A>) -> bool
        ensures { result ≡ fate_told outlook (list_any (λ o. has frame.now o) self.now.outputs) }
    {
        match outlook {
            Outlook::Must => true,
            Outlook::Never => false,
            Outlook::Unsure => is_seen(&self.outputs, frame),
        }
    }

    /// Takes the first frame's fate, and hands the frame to each port with it.
    fn decide(&mut self, passes: bool) -> Result<(), AllocError>
        requires in_step { IsInStep self.old }
        requires may_be { (n : Seen) (ns : List Seen) → self.old.undecided ≡ n ∷ ns
            → IsTrue (may_be (account_terms self.old.account) self.old.tolerance (frame_size n) (levels_at self.old n) passes) }
        ensures { (n : Seen) (ns : List Seen) → self.old.undecided ≡ n ∷ ns → OnOk result (self.new ≡ with_fate n passes (record self.old { undecided = ns })) }
    {
        if let Some(frame) = self.undecided.pop_front() {
            let size = frame.size();
            let account = self.account;
            let tolerance = self.tolerance;
            self.levels
                .learn(&account, tolerance, frame.stamp(), size, passes);
            hand_all(&mut self.outputs, &frame, passes)?;
        }
        Ok(())
    }
}

/// Returns the place of the port of a number; none if there is no such port.
fn place_in<'a, A: Allocator + Copy>(outputs: &[Output<'a, A>], port: u8) -> Option<usize>
    ensures { result ≡ position (λ o. o.port == port) outputs.now }
{
    outputs.iter().position(|output| output.port() == port)
}

/// Returns whether at each port all records that may be of a frame were taken, if all were that left before an instant.
fn are_over<'a, A: Allocator + Copy>(
    outputs: &[Output<'a, A>],
    frame: &Numbered<'a, A>,
    at: u128,
) -> bool
    ensures { result ≡ list_all (λ o. is_over at frame.now o) outputs.now }
{
    for output in outputs {
        if !output.is_over(frame, at) {
            return false;
        }
    }
    true
}

/// Returns whether a record that waits at a port may be of a frame.
fn is_seen<'a, A: Allocator + Copy>(outputs: &[Output<'a, A>], frame: &Numbered<'a, A>) -> bool
    ensures { result ≡ list_any (λ o. has frame.now o) outputs.now }
{
    for output in outputs {
        if output.has(frame) {
            return true;
        }
    }
    false
}

/// Hands a frame, whose fate is told, to each port.
fn hand_all<'a, A: Allocator + Copy>(
    outputs: &mut [Output<'a, A>],
    frame: &Numbered<'a, A>,
    passes: bool,
) -> Result<(), AllocError>
    requires { AllByRecursion (HasComeBy frame.now.frame.stamp) outputs.old }
    ensures { OnOk result (outputs.new ≡ map (λ o. with_came frame.now passes o) outputs.old) }
{
    for output in outputs.iter_mut() {
        output.came(frame.again()?, passes)?;
    }
    Ok(())
}

/// Pairs, at each port, the records that left before any frame whose fate is not told.
fn pair_all<'a, A: Allocator + Copy>(
    outputs: &mut [Output<'a, A>],
    unknown: Option<u128>,
) -> Result<(), AllocError>
    ensures { OnOk result (outputs.new ≡ map (λ o. paired_up_to unknown o) outputs.old) }
{
    for output in outputs.iter_mut() {
        output.pair(unknown)?;
    }
    Ok(())
}

/// Lets go, at each port, of the frames of which no record can be that waits, or that leaves at an instant or later.
fn go_on_all<'a, A: Allocator + Copy>(
    outputs: &mut [Output<'a, A>],
    at: u128,
) -> Result<(), AllocError>
    ensures { OnOk result (outputs.new ≡ map (λ o. gone_on at o) outputs.old) }
{
    for output in outputs.iter_mut() {
        output.go_on(at)?;
    }
    Ok(())
}

/// Ends each port.
fn end_all<'a, A: Allocator + Copy>(
    outputs: &mut [Output<'a, A>],
    last: Option<u64>,
) -> Result<(), AllocError>
    ensures { OnOk result (outputs.new ≡ map (λ o. with_end last o) outputs.old) }
{
    for output in outputs.iter_mut() {
        output.end(last)?;
    }
    Ok(())
}
