//! The command `network run`.

ghost use Rattle.std.specs.Prelude.{◌≡◌, ◌≢◌, ℕ, List, length, map, string_bytes, Option, IfOk, IfErr, MatchResult};
ghost use Rattle.afdx_session.specs.Outcome.{Results};
ghost use Rattle.afdx_session.specs.Written.{AreAppended};
ghost use Rattle.afdx_network_check.specs.Net.{Network};
ghost use Rattle.afdx_network.specs.Runs.{Given};
ghost use Rattle.afdx_network.specs.Given.{open_ends, all_ends, AreGivenBy, IsUncheckedRefusal, IsFaultOver, NoneShareAPort};
ghost use Rattle.afdx_network.specs.Outage.{coming};
ghost use Rattle.afdx_network.specs.declared.outage.Incoming.{Incoming as Coming};
ghost use Rattle.afdx_network.specs.Written.{captures_in, AreWritten};
ghost use Rattle.afdx_folder.specs.Files.{Files, KeepsFiles};
ghost use Rattle.afdx_serve.specs.Networks.{names_of};
ghost use Rattle.afdx_serve.specs.NetworkRuns.{switch_folder, bytes_at, captures_of, runs_text, FailsToGetGiven};
ghost use Rattle.afdx_serve.specs.Inner.Outputs.{HaveBytes};
ghost use Rattle.afdx_serve.specs.Inner.NetworkRunning.{network_in, end_names, AreOpenedEnds, HasRun, LeadsFrom, IsGivenFailure};
ghost use Rattle.afdx_serve.specs.Serving.{world, RunsNetwork, FailsToRunNetwork};

use crate::forms::{heading_in, push_counts};
use crate::get::{open_all, unread_failure};
use crate::names::capture_name;
use crate::network_get::{get_network, names_of};
use crate::network_plan::{NetworkPlan, plan};
use crate::outputs::{abandon_all, begin_all, put_all};
use afdx_arguments::NetworkPaths;
use afdx_count::Counts;
use afdx_csv::Form;
use afdx_folder::{Folder, NewFile, write_bytes};
use afdx_messages::{Failure, NetworkFailure};
use afdx_network::laws::{network_runs_deliver, runs_are_unchecked};
use afdx_network::{NetworkRunFault, all_ends, incoming_at, open_ends};
use afdx_network_report::name_of;
use afdx_pcap::PcapFault;
use afdx_rows::NETWORK_RUN;
use afdx_table::laws::tables_are_well_formed;
use afdx_wiring::End;
use afdx_wiring::laws::{layouts_are_within_limits, no_port_has_two_wires};
use std::alloc::{AllocError, Global};
use std::io::{Read, Write};

/// Returns the name of the folder of a switch's captures in a folder.
pub(crate) fn switch_folder(alloc: Global, folder: &str, name: &str) -> Result<String, AllocError>
    ensures { IfOk result (λ path. string_bytes path ≡ switch_folder folder.now name.now) }
{
    let mut path = String::from_str(alloc, folder)?;
    path.push_str("/")?;
    path.push_str(name)?;
    Ok(path)
}

/// Returns the names of the captures of these ports in a folder, each in that of its switch, which has its name.
pub(crate) fn names_at(
    alloc: Global,
    path: &str,
    names: &[String],
    ends: &[End],
) -> Result<Vec<String>, AllocError>
    ensures { IfOk result (λ all. map string_bytes all.items ≡ end_names path.now (map string_bytes names.now) ends.now) }
{
    let mut all = Vec::with_capacity(alloc, ends.len())?;
    for end in ends {
        let folder = switch_folder(alloc, path, name_of(names, end.switch))?;
        all.push(capture_name(alloc, &folder, end.port)?)?;
    }
    Ok(all)
}

/// Returns the failure of the capture of a port of the switch at a place among these names.
fn capture_failure(
    alloc: Global,
    names: &[String],
    switch: usize,
    port: u8,
    why: PcapFault,
) -> Failure
    ensures { IsGivenFailure (map string_bytes names.now) result (NetworkRunFault.Capture switch port why) }
{
    match String::from_str(alloc, name_of(names, switch)) {
        Ok(name) => Failure::Network(NetworkFailure::Capture(port, why, name)),
        Err(_) => Failure::Memory,
    }
}

/// Returns the failure of a record that came too soon for the line of a port of the switch at a place among these names.
fn line_failure(alloc: Global, names: &[String], switch: usize, port: u8, number: u64) -> Failure
    ensures { IsGivenFailure (map string_bytes names.now) result (NetworkRunFault.Line switch port number) }
{
    match String::from_str(alloc, name_of(names, switch)) {
        Ok(name) => Failure::Network(NetworkFailure::Line(port, number, name)),
        Err(_) => Failure::Memory,
    }
}

/// Returns the failure for a fault of a run over captures that were opened under these names.
pub(crate) fn run_failure<F: Folder>(
    alloc: Global,
    folder: &mut F,
    names: &[String],
    opened: &[String],
    fault: NetworkRunFault,
) -> Failure
    requires wires { fault ≢ NetworkRunFault.WrongWires }
    requires of { (files : Option Files) × (path : List ℕ) × (net : Network) × (all : List (Coming F.Opened))
        × AreOpenedEnds F.Opened.remaining files path net (map string_bytes opened.now) all
        × IsFaultOver (coming F.Opened.remaining) net all (IsUncheckedRefusal net) fault }
    ensures failed { (files : Option Files) (path : List ℕ) (net : Network) (all : List (Coming F.Opened))
        → map string_bytes names.now ≡ names_of net.layout.switches → length net.tables ≡ length net.layout.switches
        → AreOpenedEnds F.Opened.remaining files path net (map string_bytes opened.now) all
        → IsFaultOver (coming F.Opened.remaining) net all (IsUncheckedRefusal net) fault
        → FailsToGetGiven result files path net (F.failed folder.old) (F.failed folder.new) }
    ensures same { KeepsFiles (F.files folder.old) (F.files folder.new) }
{
    match fault {
        NetworkRunFault::Memory => Failure::Memory,
        // No two wires of a file go to one port.
        NetworkRunFault::WrongWires => unreachable!(),
        NetworkRunFault::Read(place) => unread_failure(alloc, folder, &opened[place]),
        NetworkRunFault::Capture(switch, port, why) => {
            capture_failure(alloc, names, switch, port, why)
        }
        NetworkRunFault::Line(switch, port, number) => {
            line_failure(alloc, names, switch, port, number)
        }
    }
}

/// Runs the network of a plan over what these readers give: appends what leaves to these files, and returns the counts of its switches.
fn counts_of<R: Read, N: NewFile>(
    alloc: Global,
    plan: &NetworkPlan,
    readers: &mut [R],
    files: &mut [N],
) -> Result<Vec<Counts<Global>>, NetworkRunFault>
    requires readers { length readers.old ≡ length (open_ends (network_in plan.now)) }
    requires files { length files.old ≡ length (all_ends (network_in plan.now)) }
    ensures ok { IfOk result (λ counts. (given : Given) × (left : List Results) × AreGivenBy R.remaining (network_in plan.now) readers.old given
        × HasRun plan.now given left × AreWritten N.contents left files.old files.new counts.items) }
    ensures err { IfErr result (IsFaultOver R.remaining (network_in plan.now) readers.old (IsUncheckedRefusal (network_in plan.now))) }
{
    runs_are_unchecked();
    match plan {
        NetworkPlan::Unchecked(network) => {
            afdx_network::run_unchecked(alloc, network, readers, files)
        }
        NetworkPlan::Accepted(cleared) => afdx_network::run(alloc, cleared, readers, files),
    }
}

/// Returns what is written of the switches: their reports, each line after its switch's name, or their rows, below a heading.
fn runs_text(
    alloc: Global,
    form: Form,
    names: &[String],
    counts: &[Counts<Global>],
) -> Result<Vec<u8>, AllocError>
    requires { length names.now ≡ length counts.now }
    ensures { (left : List Results) → counts.now ≡ map (λ r. r.counts) left → IfOk result (λ text. text.items ≡ runs_text form (map string_bytes names.now) left) }
{
    let heading = heading_in(alloc, form, NETWORK_RUN)?;
    let mut text = heading.into_bytes();
    for (switch, own) in counts.iter().enumerate() {
        push_counts(
            alloc,
            form,
            NETWORK_RUN,
            &mut text,
            name_of(names, switch),
            own,
        )?;
    }
    Ok(text)
}

/// Runs the network of a plan over the captures of a folder, each of which is opened and read once, or not read if its switch is down:
/// appends what leaves to these files, and returns the reports.
fn reports_of_folder<F: Folder>(
    alloc: Global,
    folder: &mut F,
    path: &str,
    names: &[String],
    plan: &NetworkPlan,
    form: Form,
    files: &mut [F::New],
) -> Result<Vec<u8>, Failure>
    requires names { map string_bytes names.now ≡ names_of (network_in plan.now).layout.switches }
    requires tables { length (network_in plan.now).tables ≡ length (network_in plan.now).layout.switches }
    requires one_each { NoneShareAPort (network_in plan.now) }
    requires files { length files.old ≡ length (all_ends (network_in plan.now)) }
    ensures led { MatchResult result
        (λ text. ((left : List Results) × LeadsFrom (F.files folder.old) path.now plan.now left
        × AreAppended F.New.contents files.old files.new (captures_in left) × (text.items ≡ runs_text form (names_of (network_in plan.now).layout.switches) left))
        × (F.failed folder.new ≡ F.failed folder.old))
        (λ f. FailsToGetGiven f (F.files folder.old) path.now (network_in plan.now) (F.failed folder.old) (F.failed folder.new)) }
    ensures same { KeepsFiles (F.files folder.old) (F.files folder.new) }
{
    let ends = open_ends(alloc, plan.network())?;
    let opened_names = names_at(alloc, path, names, &ends)?;
    let opened = open_all(alloc, folder, &opened_names)?;
    let mut all = incoming_at(alloc, plan.network(), &ends, opened)?;
    match counts_of(alloc, plan, &mut all, files) {
        Ok(counts) => Ok(runs_text(alloc, form, names, &counts)?),
        Err(fault) => Err(run_failure(alloc, folder, names, &opened_names, fault)),
    }
}

/// Makes the new files of a run over the captures of a folder, to be put under these names, and returns them with the reports. After an
/// error no new file is left.
fn lead<F: Folder>(
    alloc: Global,
    folder: &mut F,
    path: &str,
    names: &[String],
    plan: &NetworkPlan,
    form: Form,
    outputs: &[String],
) -> Result<(Vec<F::New>, Vec<u8>), Failure>
    requires names { map string_bytes names.now ≡ names_of (network_in plan.now).layout.switches }
    requires tables { length (network_in plan.now).tables ≡ length (network_in plan.now).layout.switches }
    requires one_each { NoneShareAPort (network_in plan.now) }
    requires outputs { length outputs.now ≡ length (all_ends (network_in plan.now)) }
    ensures led { MatchResult result
        (λ both. ((left : List Results) × LeadsFrom (F.files folder.old) path.now plan.now left
        × HaveBytes F.New.contents (F.files folder.old) both.0.items (bytes_at (captures_of left)) × (both.1.items ≡ runs_text form (names_of (network_in plan.now).layout.switches) left))
        × (F.failed folder.new ≡ F.failed folder.old))
        (λ f. FailsToGetGiven f (F.files folder.old) path.now (network_in plan.now) (F.failed folder.old) (F.failed folder.new)) }
    ensures count { IfOk result (λ both. length both.0.items ≡ length outputs.now) }
    ensures same { KeepsFiles (F.files folder.old) (F.files folder.new) }
{
    let mut files = begin_all(alloc, folder, outputs)?;
    match reports_of_folder(alloc, folder, path, names, plan, form, &mut files) {
        Ok(text) => Ok((files, text)),
        Err(failure) => {
            abandon_all(folder, files.into_iter());
            Err(failure)
        }
    }
}

/// Runs the network of a file over the captures of a folder, puts what leaves each switch into another, and writes the
/// report of each switch, with its name before each line, or in the first column of each row.
///
/// IN/A has the captures of the ports of switch A to which no wire goes; those of all its ports are put into OUT/A, which has
/// to be there. The network is accepted before a file is begun, unless the run is unchecked. Then a new file is begun for each output, by
/// switch and port, and the captures are opened in this order, and read once, in pieces, while the switches run. If one cannot be read
/// or has a fault, the others are read on to their ends, so that the failure is the first in this order; so it is with records that came too
/// soon for the line of an end system, if the file says that each has one. What leaves goes to the new files;
/// then these are put in the same order, and then the reports are written. All names and reports are made before the first put, and the
/// device has all files by then: if it fails to take one, none is put. After a put that failed the files before it are there, and no
/// later one is put. New files that are not put are let go.
///
/// # Errors
///
/// What is met first: as `network check`, without what it checks of loads, tables and jitters if the run is unchecked; `Get` of a
/// capture, by switch and then by port; `Network` with the fault of a capture, or with a line that was not kept to; `Put`; `Write`; `Memory`
/// if memory ran out.
///
/// O(files), beside the runs of the switches.
pub(crate) fn network_run<O: Write, F: Folder>(
    alloc: Global,
    paths: &NetworkPaths<'_>,
    form: Form,
    out: &mut O,
    folder: &mut F,
) -> Result<(), Failure>
    ensures { MatchResult result
        (λ _. RunsNetwork form paths.now
        (world (O.contents out.old) (F.files folder.old) (F.failed folder.old)) (world (O.contents out.new) (F.files folder.new) (F.failed folder.new)))
        (λ f. FailsToRunNetwork f form paths.now
        (world (O.contents out.old) (F.files folder.old) (F.failed folder.old)) (world (O.contents out.new) (F.files folder.new) (F.failed folder.new))) }
{
    network_runs_deliver();
    layouts_are_within_limits();
    no_port_has_two_wires();
    tables_are_well_formed();
    let network = get_network(alloc, folder, paths.network)?;
    let names = names_of(alloc, &network.layout().switches)?;
    let plan = plan(alloc, &names, network, paths.unchecked)?;
    let ends = all_ends(alloc, plan.network())?;
    let outputs = names_at(alloc, paths.output, &names, &ends)?;
    let (files, text) = lead(alloc, folder, paths.input, &names, &plan, form, &outputs)?;
    put_all(alloc, folder, &outputs, files)?;
    write_bytes(out, &text)?;
    Ok(())
}
