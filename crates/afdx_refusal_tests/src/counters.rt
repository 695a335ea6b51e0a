//! Counters and their report. Each call that is out of memory is made once more.

use crate::allocations::{Calls, Memory, count, made_again, refuse};
use crate::tables::table_of;
use afdx_core::{Fate, Offers, Step};
use afdx_count::Counts;
use afdx_port::Offer;
use afdx_samples::single;
use afdx_table::Table;
use std::alloc::{Allocator, Global};
use std::test::*;

/// The report if no frame came in.
const NO_FRAMES: &str =
    "in 1 seen 0 cut 0 short 0 long 0 foreign 0 no-link 0 wrong-port 0 too-big 0 clean 0
in 2 seen 0 cut 0 short 0 long 0 foreign 0 no-link 0 wrong-port 0 too-big 0 clean 0
link 10 passed 0 policed 0
out 1 high offered 0 full 0 aged 0 sent 0
out 1 low offered 0 full 0 aged 0 sent 0
out 2 high offered 0 full 0 aged 0 sent 0
out 2 low offered 0 full 0 aged 0 sent 0
";

/// The report if a frame of link 10 was passed, and its copy queued.
const ONE_FRAME: &str =
    "in 1 seen 1 cut 0 short 0 long 0 foreign 0 no-link 0 wrong-port 0 too-big 0 clean 1
in 2 seen 0 cut 0 short 0 long 0 foreign 0 no-link 0 wrong-port 0 too-big 0 clean 0
link 10 passed 1 policed 0
out 1 high offered 0 full 0 aged 0 sent 0
out 1 low offered 0 full 0 aged 0 sent 0
out 2 high offered 0 full 0 aged 0 sent 0
out 2 low offered 1 full 0 aged 0 sent 0
";

/// Counters of a table's ports and links, with a report before the arrival of a frame and one after it.
#[derive(Clone, Copy)]
struct Reporting<'a> {
    table: &'a Table,
    step: &'a Step,
}

/// Makes new counters of a table's ports and links, once more if memory runs out.
fn fresh<'a>(memory: &'a Memory, table: &Table, wants: &mut u64) -> Option<Counts<&'a Memory>> {
    match Counts::new(memory, table) {
        Ok(counts) => Some(counts),
        Err(_) => {
            count(wants);
            Counts::new(memory, table).ok()
        }
    }
}

/// Returns whether the report is this text, or none if memory runs out.
fn reports<A: Allocator + Copy>(counts: &Counts<A>, memory: &Memory, text: &str) -> Option<bool> {
    match counts.report(memory) {
        Ok(report) => Some(report.as_str() == text),
        Err(_) => None,
    }
}

/// Returns whether the report, which is made once more if memory runs out, is this text.
fn reports_again<A: Allocator + Copy>(
    counts: &Counts<A>,
    memory: &Memory,
    text: &str,
    wants: &mut u64,
) -> bool {
    match reports(counts, memory, text) {
        Some(right) => right,
        None => {
            count(wants);
            reports(counts, memory, text) == Some(true)
        }
    }
}

impl Calls for Reporting<'_> {
    fn answer(&self, memory: &Memory) -> Result<Option<bool>, Fail> {
        let mut wants = 0u64;
        let Some(mut counts) = fresh(memory, self.table, &mut wants) else {
            return Ok(Some(false));
        };
        let before = reports_again(&counts, memory, NO_FRAMES, &mut wants);
        counts.note(self.step);
        let after = reports_again(&counts, memory, ONE_FRAME, &mut wants);
        Ok(made_again(before && after, wants))
    }
}

/// Returns the arrival of the frame.
fn one_step() -> Step {
    let mut offers = Offers::new();
    offers.push(2, Offer::Queued);
    Step {
        number: 0,
        in_port: 1,
        fate: Fate::Passed(10),
        offers,
        place: Some(0),
    }
}

/// Checks that the counters are as before after each report, refused or not.
#[test]
fn reports_before_and_after_a_frame(rt: HostRuntime) -> Result<(), Fail> {
    let alloc = rt.alloc();
    let table = table_of(alloc, &single(alloc)?)?;
    let step = one_step();
    let calls = Reporting {
        table: &table,
        step: &step,
    };
    refuse(&rt, alloc, "Counts", &calls, 4)
}
