//! A link at a port, over frames and records that are given by instants and letters.

use afdx_account::Account;
use afdx_following::{Following, Output, Start, Watch};
use afdx_pairing::{Event, Numbered};
use afdx_pcap::Record;
use afdx_units::{Bag, Police, Speed, Stamp};
use std::alloc::{AllocError, Global};
use std::fmt::Write;
use std::test::Fail;

/// An instant in nanoseconds, and the last byte of a frame of link 7.
pub(crate) type Sight = (u64, u8);

/// What is known of recordings of a switch of which the least latency is not known, and that takes the same for each frame.
#[derive(Clone, Copy)]
pub(crate) struct Known {
    /// By how many nanoseconds stamps may be off.
    pub(crate) tolerance: u64,
    /// Bytes from an output stamp until the line is free.
    pub(crate) gap: u64,
    /// The instant at which they begin; none if they begin at rest.
    pub(crate) from: Option<u64>,
    /// The instant at which they end; none if all had left.
    pub(crate) until: Option<u64>,
}

/// At rest, with stamps that are exact and taken when the line is free again.
pub(crate) const EXACT: Known = Known {
    tolerance: 0,
    gap: 0,
    from: None,
    until: None,
};

/// The same, but that they begin at an instant.
pub(crate) const CUT: Known = Known {
    from: Some(1_000_000),
    ..EXACT
};

/// Returns the instant of so many nanoseconds.
fn instant(ns: u64) -> Result<Stamp, Fail> {
    match Stamp::from_ns(ns) {
        Some(stamp) => Ok(stamp),
        None => Err(Fail::from("an instant")),
    }
}

/// Returns the instant of so many nanoseconds, if any.
fn instant_of(ns: Option<u64>) -> Result<Option<Stamp>, Fail> {
    match ns {
        Some(ns) => Ok(Some(instant(ns)?)),
        None => Ok(None),
    }
}

/// Makes the record of a frame of link 7, of 64 bytes.
pub(crate) fn record(alloc: Global, (ns, letter): Sight) -> Result<Record<'static, Global>, Fail> {
    let stamp = instant(ns)?;
    let mut bytes = [3, 0, 0, 0, 0, 7].to_vec(alloc)?;
    bytes.resize(59, 0)?;
    bytes.push(letter)?;
    match Record::new(stamp, 60, bytes) {
        Ok(record) => Ok(record),
        Err(_) => Err(Fail::from("a record")),
    }
}

/// Appends the text of an event, with the numbers of the frame and of the record, and the delay.
fn tell(text: &mut String<Global>, event: &Event) -> Result<(), AllocError> {
    match *event {
        Event::Early(pair) => write!(
            text,
            "early {}={} {} ",
            pair.came.number, pair.left.number, pair.delay
        )?,
        Event::Late(pair) => write!(
            text,
            "late {}={} {} ",
            pair.came.number, pair.left.number, pair.delay
        )?,
        Event::Missing(came) => write!(text, "missing {} ", came.number)?,
        Event::Extra(left, None) => write!(text, "extra {} ", left.number)?,
        Event::Extra(left, Some(came)) => write!(
            text,
            "extra {} of {} ",
            left.number, came.number
        )?,
        Event::Kept(_) | Event::After(_) | Event::Before(_) => {}
    }
    Ok(())
}

/// Has a frame come, if it counts.
fn come(
    link: &mut Following<'static, Global>,
    watch: &Watch,
    came: Numbered<'static, Global>,
) -> Result<(), Fail> {
    if !watch.has_frame(came.stamp()) {
        return Ok(());
    }
    if u128::from(came.stamp().ns()) < link.latest() || !link.fits(&came) {
        return Err(Fail::from("a frame in order"));
    }
    link.came(came)?;
    Ok(())
}

/// Has a record leave, if it counts.
fn leave(
    link: &mut Following<'static, Global>,
    watch: &Watch,
    left: Numbered<'static, Global>,
) -> Result<(), Fail> {
    if !watch.has_record(left.stamp()) {
        return Ok(());
    }
    let Some(at) = link.left_by(0, &left) else {
        return Err(Fail::from("a port"));
    };
    if at < link.latest() {
        return Err(Fail::from("a record in order"));
    }
    link.left(0, left)?;
    Ok(())
}

/// Has those records leave, in their order, that had left between two instants by their stamps.
fn leave_between(
    alloc: Global,
    link: &mut Following<'static, Global>,
    watch: &Watch,
    sights: &[Sight],
    from: u128,
    until: u128,
) -> Result<(), Fail> {
    let mut number = 0u64;
    for sight in sights {
        number = number.saturating_add(1);
        let frame = record(alloc, *sight)?;
        let left = Numbered::new(alloc, number, frame.stamp(), frame)?;
        let by = link.left_by(0, &left);
        if by.is_some_and(|at| from <= at && at < until) {
            leave(link, watch, left)?;
        }
    }
    Ok(())
}

/// Makes a link, by bytes, of gap 1 ms and without jitter, at a port of 100 Mbit/s with a bound of 22,720 ns.
fn link_at_a_port(alloc: Global, watch: &Watch) -> Result<Following<'static, Global>, Fail> {
    if watch.tolerance > 1_000_000_000 {
        return Err(Fail::from("a tolerance"));
    }
    // example of afdx_following
    let limits = watch.limits(22_720, Speed::Hundred);
    let mut outputs = Vec::new(alloc);
    outputs.push(Output::new(alloc, 2, limits, true))?;
    let account = Account::new(Police::Byte, 64, Bag::Ms1, 0);
    Ok(Following::new(
        alloc,
        account,
        watch.tolerance,
        watch.unknown_since(),
        outputs,
    ))
    // end of example
}

/// Appends the texts of events.
fn tell_all(text: &mut String<Global>, events: &[Event]) -> Result<(), AllocError> {
    for event in events {
        tell(text, event)?;
    }
    Ok(())
}

/// Writes what was found out of a link.
fn text_of(alloc: Global, link: &Following<'static, Global>) -> Result<String<Global>, AllocError> {
    let mut text = String::new(alloc);
    for output in link.outputs() {
        tell_all(&mut text, output.differences())?;
        let tally = output.tally();
        write!(
            text,
            "kept {} after {} before {} ",
            tally.kept, tally.after, tally.before
        )?;
    }
    write!(text, "unsure {}", link.unsure())?;
    Ok(text)
}

/// Has all frames come and all records leave, in the order of their instants.
fn follow(
    alloc: Global,
    link: &mut Following<'static, Global>,
    watch: &Watch,
    came: &[Sight],
    left: &[Sight],
) -> Result<(), Fail> {
    let mut told = 0u128;
    let mut number = 0u64;
    for sight in came {
        number = number.saturating_add(1);
        let frame = record(alloc, *sight)?;
        let at = u128::from(frame.stamp().ns());
        leave_between(alloc, link, watch, left, told, at)?;
        let came = Numbered::new(alloc, number, frame.stamp(), frame)?;
        come(link, watch, came)?;
        told = at;
    }
    leave_between(alloc, link, watch, left, told, u128::MAX)?;
    // example of afdx_following
    link.end(watch.last_record())?;
    // end of example
    Ok(())
}

/// Writes what is found out of link 7 if it is watched by this.
fn found_by(
    alloc: Global,
    watch: &Watch,
    came: &[Sight],
    left: &[Sight],
) -> Result<String<Global>, Fail> {
    let mut link = link_at_a_port(alloc, watch)?;
    follow(alloc, &mut link, watch, came, left)?;
    let text = text_of(alloc, &link)?;
    Ok(text)
}

/// Writes what is found out of link 7, over what came and what was recorded.
pub(crate) fn answer(
    alloc: Global,
    known: &Known,
    came: &[Sight],
    left: &[Sight],
) -> Result<String<Global>, Fail> {
    let start = match instant_of(known.from)? {
        Some(from) => Start::Cut(from),
        None => Start::Rest,
    };
    let until = instant_of(known.until)?;
    let watch = Watch {
        least: 0,
        scatter: 0,
        tolerance: known.tolerance,
        gap: known.gap,
        start,
        until,
    };
    found_by(alloc, &watch, came, left)
}
