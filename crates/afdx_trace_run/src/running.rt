//! The run over readers.

ghost use Rattle.std.specs.Prelude.{◌≡◌, ◌<◌, true, List, None, length, IfErr, OnOk};
ghost use Rattle.afdx_units.specs.Time.{last_second};
ghost use Rattle.afdx_table.specs.Content.{Content};
ghost use Rattle.afdx_table.specs.WellFormed.{IsWellFormed};
ghost use Rattle.afdx_load.specs.Accepted.{IsAccepted};
ghost use Rattle.afdx_core.specs.Rows.{row_of};
ghost use Rattle.afdx_core.specs.State.{Run, after_row, refusal_of};
ghost use Rattle.afdx_trace.specs.Inner.Lines.{HasGone};
ghost use Rattle.afdx_trace.specs.Inner.Telling.{Tells, HaveGone};
ghost use Rattle.afdx_trace.specs.declared.shown.Selection.{Selection as Selected};
ghost use Rattle.afdx_session.specs.Outcome.{table_in, is_cleared};
ghost use Rattle.afdx_session.specs.Sources.{IsSourceFault};
ghost use Rattle.afdx_trace_run.specs.Traced.{IsTraced};
ghost use Rattle.afdx_trace_run.specs.Inner.Running.{port_at, HasTold, HasTakenAll};

use crate::captures::{opened, source_fault};
use afdx_core::laws::{accepted_tables_isolate, calls_make_runs};
use afdx_folder::NewFile;
use afdx_merging::{Arrival, Merging};
use afdx_session::laws::merged_is_the_only_one;
use afdx_session::{Plan, SourceFault};
use afdx_table::Table;
use afdx_trace::{Selection, Tracing};
use std::alloc::{AllocError, Allocator};
use std::io::Read;

/// Returns the table of a plan.
fn table_of(plan: Plan) -> Table
    ensures table { result ≡ table_in plan }
    ensures accepted { is_cleared plan ≡ true → IsAccepted (table_in plan) }
{
    match plan {
        Plan::Unchecked(table) => table,
        Plan::Cleared(cleared) => cleared.into_table(),
    }
}

/// Gives a record to the switch.
fn take<A: Allocator + Copy, F: NewFile>(
    alloc: A,
    tracing: &mut Tracing<'_, A>,
    arrival: Arrival<A>,
    arrivals: &mut F,
    departures: &mut [F],
) -> Result<(), AllocError>
    requires place { arrival.place < length tracing.old.table.ports }
    requires may { (s : Selected) × (r : Run) × Tells s r tracing.old × (refusal_of r (port_at r.table arrival.place) arrival.head.frame.stamp ≡ None) }
    requires early { arrival.head.frame.stamp < last_second }
    requires files { length departures.old ≡ length tracing.old.ports.items }
    ensures files { length departures.new ≡ length tracing.new.ports.items }
    ensures tells { OnOk result ((s : Selected) (r : Run) → Tells s r tracing.old → refusal_of r (port_at r.table arrival.place) arrival.head.frame.stamp ≡ None
        → Tells s (after_row (row_of r.table (port_at r.table arrival.place) arrival.head.frame) r) tracing.new) }
    ensures arrivals { OnOk result ((start : F) → HasGone F.contents start arrivals.old tracing.old.lines → HasGone F.contents start arrivals.new tracing.new.lines) }
    ensures departures { OnOk result ((start : List F) → HaveGone F.contents start departures.old tracing.old.ports.items → HaveGone F.contents start departures.new tracing.new.ports.items) }
{
    let port = tracing.table().ports()[arrival.place].id;
    let frame = arrival.head.into_frame(alloc)?;
    tracing.arrive(port, &frame, arrivals, departures)
}

/// Gives all records to the switch, by stamp and then by port.
fn take_all<A: Allocator + Copy, R: Read, F: NewFile>(
    alloc: A,
    tracing: &mut Tracing<'_, A>,
    merging: &mut Merging<A>,
    readers: &mut [R],
    arrivals: &mut F,
    departures: &mut [F],
) -> Result<(), SourceFault>
    requires { (t : Content) × (s : Selected) × (first : List R) × (start : F) × (starts : List F) × IsWellFormed t × (length first ≡ length t.ports)
        × HasTold R.remaining F.contents t s first readers.old start arrivals.old starts departures.old merging.old tracing.old }
    ensures ok { OnOk result ((t : Content) (s : Selected) (first : List R) (start : F) (starts : List F) → IsWellFormed t
        → HasTold R.remaining F.contents t s first readers.old start arrivals.old starts departures.old merging.old tracing.old
        → HasTakenAll R.remaining F.contents t s first start arrivals.new starts departures.new tracing.new) }
    ensures err { IfErr result (λ fault. (t : Content) (s : Selected) (first : List R) (start : F) (starts : List F) → IsWellFormed t → length first ≡ length t.ports
        → HasTold R.remaining F.contents t s first readers.old start arrivals.old starts departures.old merging.old tracing.old
        → IsSourceFault R.remaining t first fault) }
{
    calls_make_runs();
    for _record in 0..u64::MAX {
        match merging.next(readers) {
            Ok(Some(arrival)) => take(alloc, tracing, arrival, arrivals, departures)?,
            Ok(None) => return Ok(()),
            Err(fault) => return Err(source_fault(tracing.table().ports(), fault)),
        }
    }
    Err(SourceFault::Memory)
}

/// Makes the run over captures that readers give, of the table's ports by rising number, and tells what became of each arrival and of each copy: the
/// lines of the arrivals are appended to one file, and those of each port's copies, without a heading, to the file at its place, in parts while it
/// goes on. Of each capture no more is kept than a piece and its next record, and of the run no more than what waits at the ports.
///
/// # Errors
///
/// Those of [`run_from`](afdx_session::run_from), in its order. Nothing is said then of what the files have. A file that fails is no error
/// here: it answers when it is settled.
///
/// O(links + ports), O(ports) for each record and O(1) for each copy; for each line as many steps as links are selected.
pub fn trace_from<A: Allocator + Copy, R: Read, F: NewFile>(
    alloc: A,
    plan: Plan,
    selection: &Selection<'_>,
    readers: &mut [R],
    arrivals: &mut F,
    departures: &mut [F],
) -> Result<(), SourceFault>
    requires readers { length readers.old ≡ length (table_in plan).ports }
    requires files { length departures.old ≡ length (table_in plan).ports }
    ensures ok { OnOk result (IsTraced R.remaining F.contents (is_cleared plan) (table_in plan) selection.now readers.old arrivals.old arrivals.new departures.old departures.new) }
    ensures err { IfErr result (λ fault. IsSourceFault R.remaining (table_in plan) readers.old fault) }
{
    merged_is_the_only_one();
    accepted_tables_isolate();
    calls_make_runs();
    let table = table_of(plan);
    let mut merging = opened(alloc, table.ports(), readers)?;
    let mut tracing = Tracing::new(alloc, table, selection)?;
    take_all(
        alloc,
        &mut tracing,
        &mut merging,
        readers,
        arrivals,
        departures,
    )?;
    Ok(tracing.end(arrivals, departures)?)
}
