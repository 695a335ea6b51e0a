//! What is asked of a run beside its output: measures, a trace and a verdict.

use crate::settings::{SINGLE, plan};
use crate::texts::Frame::Small;
use crate::texts::Text::Frames;
use crate::texts::{EMPTY, Text, captures};
use afdx_measure::{Measuring, Wanted, report};
use afdx_network_trace::with_first_numbers;
use afdx_paced::Paced;
use afdx_rows::put_verdict;
use afdx_samples::{MemoryFile, capture, record, single, small};
use afdx_session::{Plan, finished, run};
use afdx_table::read;
use afdx_trace::{Selection, arrivals};
use afdx_trace_run::trace_from;
use afdx_units::Stamp;
use afdx_verdict::{push_verdict, verdict};
use std::alloc::Global;
use std::test::Fail;

/// One frame at port 1.
const ONE_FRAME: &[Text] = &[Frames(&[Small(10, 0)]), EMPTY];

/// Its 60 captured bytes are 64 in a buffer.
const MEASURED: &str = "link 10 out 2 sent 1 least 6720 greatest 6720 bound -
out 1 occupied 0 of 100000 at -
out 2 occupied 64 of 100000 at 0
";

#[test]
fn measures_of_one_frame(rt: HostRuntime) -> Result<(), Fail> {
    // example of afdx_measure
    let table = read(rt.alloc(), single(rt.alloc())?.as_bytes())?;
    let frame = record(rt.alloc(), small(10, 0)).ok_or("a record")?;
    let mut switch = Measuring::new(rt.alloc(), table, Wanted::Measures)?;
    let _step = switch.arrive(1, frame).ok().ok_or("an arrival")?;
    let mut measured = switch.finish();
    let mut capture = Vec::new(rt.alloc());
    let _is_out = measured.next_out_into(2, &mut capture)?;
    let measures = measured.into_measures().ok_or("measures")?;
    let text = report(rt.alloc(), &measures, false)?;
    assert_eq!(rt; text.as_str(), MEASURED);
    // end of example
    Ok(())
}

/// The arrival of one frame.
const ARRIVALS: &str = "frame,port,record,stamp,link,size,fate,early,full
0,1,1,0,10,64,passed,,
";

#[test]
fn trace_of_one_frame(rt: HostRuntime) -> Result<(), Fail> {
    let plan = plan(rt.alloc(), SINGLE)?;
    let captures = captures(rt.alloc(), ONE_FRAME)?;
    // example of afdx_trace
    let done = finished(rt.alloc(), plan, &captures)?;
    let all = Selection {
        links: &[],
        relative: false,
    };
    let lines = arrivals(rt.alloc(), &done, &all)?;
    assert_eq!(rt; lines.as_str(), ARRIVALS);
    // end of example
    Ok(())
}

/// Checks that the second frame has number 7, which it had at its first switch, and the first one none, since it came in here.
#[test]
fn numbers_at_first_switches(rt: HostRuntime) -> Result<(), Fail> {
    // example of afdx_network_trace
    let arrivals = "frame,port\n0,1\n1,2\n";
    let text = with_first_numbers(rt.alloc(), arrivals, &[None, Some(7)])?;
    let with_origins = b"frame,port,origin\n0,1,\n1,2,7\n".as_slice();
    assert_eq!(rt; text.as_slice(), with_origins);
    // end of example
    Ok(())
}

/// Makes a file with no bytes in memory.
fn no_bytes(alloc: Global) -> MemoryFile<Global> {
    MemoryFile {
        bytes: Vec::new(alloc),
    }
}

#[test]
fn trace_of_one_frame_while_it_runs(rt: HostRuntime) -> Result<(), Fail> {
    let plan = plan(rt.alloc(), SINGLE)?;
    if plan.table().ports().len() != 2 {
        return Err("a table of two ports".into());
    }
    let captures = [
        (1u8, capture(rt.alloc(), &[small(10, 0)])?),
        (2u8, capture(rt.alloc(), &[])?),
    ];
    let mut departures = [no_bytes(rt.alloc()), no_bytes(rt.alloc())];
    // example of afdx_trace_run
    let mut readers = [captures[0].1.as_slice(), captures[1].1.as_slice()];
    let mut arrivals = MemoryFile {
        bytes: Vec::new(rt.alloc()),
    };
    let all = Selection {
        links: &[],
        relative: false,
    };
    trace_from(
        rt.alloc(),
        plan,
        &all,
        &mut readers,
        &mut arrivals,
        &mut departures,
    )?;
    assert_eq!(rt; arrivals.bytes.as_slice(), ARRIVALS.as_bytes());
    // end of example
    Ok(())
}

#[test]
fn verdict_of_one_frame(rt: HostRuntime) -> Result<(), Fail> {
    let captures = captures(rt.alloc(), ONE_FRAME)?;
    // example of afdx_session
    let table = read(rt.alloc(), single(rt.alloc())?.as_bytes())?;
    let outcome = run(rt.alloc(), Plan::Unchecked(table), &captures)?;
    let report = outcome.counts.report(rt.alloc())?;
    assert!(rt; report.as_str().starts_with("in 1 seen 1 cut 0 "));
    // end of example
    // example of afdx_verdict
    let mut line = String::new(rt.alloc());
    push_verdict(&mut line, &verdict(&outcome.counts))?;
    assert_eq!(rt;
        line.as_str(),
        "policed 0 links 0 frames, filtered 0, lost 0\n"
    );
    // end of example
    // example of afdx_rows
    let mut row = String::new(rt.alloc());
    put_verdict(&mut row, &verdict(&outcome.counts))?;
    assert!(rt; row.as_str().starts_with("verdict,"));
    // end of example
    Ok(())
}

/// Checks that the frame that starts at 0 goes out 6,720 ns later, when the line is free again.
#[test]
fn one_frame_by_time(rt: HostRuntime) -> Result<(), Fail> {
    // example of afdx_paced
    let table = read(rt.alloc(), single(rt.alloc())?.as_bytes())?;
    let frame = record(rt.alloc(), small(10, 0)).ok_or("a record")?;
    let mut switch = Paced::new(rt.alloc(), table, Wanted::Nothing)?;
    switch.put(1, frame)?;
    switch.go_to(Stamp::from_ns(6_720).ok_or("an instant")?)?;
    let out = switch.next_out(2)?.ok_or("a record")?;
    assert_eq!(rt; out.stamp().ns(), 6_720);
    // end of example
    Ok(())
}
