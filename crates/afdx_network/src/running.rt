//! A run of a network: each switch over captures that agree with the wires.

ghost use Rattle.std.specs.Prelude.{◌≡◌, ℕ, All, IfErr, IfOk, OnOk, List, [], length};
ghost use Rattle.afdx_table.specs.WellFormed.{IsWellFormed};
ghost use Rattle.afdx_measure.specs.Wanted.{keeps_lists};
ghost use Rattle.afdx_session.specs.Texts.{Text};
ghost use Rattle.afdx_session.specs.Outcome.{Results};
ghost use Rattle.afdx_network.specs.Runs.{Given, IsRunOf, IsUncheckedRunOf};
ghost use Rattle.afdx_network.specs.Given.{open_ends, all_ends, AreGivenBy, IsRefusal, IsUncheckedRefusal, IsFaultOver};
ghost use Rattle.afdx_network.specs.Written.{AreWritten};
ghost use Rattle.afdx_network.specs.Inner.Intake.{HasTaken};
ghost use Rattle.afdx_network.specs.Inner.Noted.{HasNoted};
ghost use Rattle.afdx_network.specs.Inner.Windows.{HasRunThrough, IsRunOver, IsStop};

use crate::fault::{NetworkRunFault, Stop};
use crate::given::check_wires;
use crate::intake::Intake;
use crate::site::Site;
use crate::windows::{counts_of, go_through, sites_of};
use afdx_count::Counts;
use afdx_folder::NewFile;
use afdx_measure::Wanted;
use afdx_network_check::{ClearedNetwork, Network};
use afdx_origins::Origins;
use afdx_paced::laws::{out_goes_on, out_is_in_order};
use afdx_pcap::laws::{each_file_has_one_reading, what_is_written_is_a_capture};
use afdx_session::laws::outcomes_isolate;
use std::alloc::Global;
use std::io::Read;

/// Runs the switches of a network, over what is given, until nothing is left.
fn go_on<R: Read, F: NewFile>(
    alloc: Global,
    network: &Network,
    intake: &mut Intake,
    readers: &mut [R],
    wanted: Wanted,
    origins: &mut Option<Origins<'_>>,
    files: &mut [F],
) -> Result<Vec<Site>, Stop>
    requires taken { (first : List R) × HasTaken R.remaining network.now first readers.old intake.old [] }
    requires files { length files.old ≡ length (all_ends network.now) }
    ensures ok { (first : List R) → HasTaken R.remaining network.now first readers.old intake.old []
        → IfOk result (λ sites. HasRunThrough R.remaining F.contents network.now first readers.new intake.new files.old files.new sites.items) }
    ensures noted { IfOk result (λ sites. HasNoted network.now (keeps_lists wanted) origins.old origins.new sites.items) }
    ensures err { (first : List R) → HasTaken R.remaining network.now first readers.old intake.old []
        → IfErr result (IsStop R.remaining network.now first readers.new intake.new) }
{
    check_wires(network)?;
    let mut sites = sites_of(alloc, network, wanted)?;
    go_through(alloc, network, intake, readers, &mut sites, origins, files)?;
    Ok(sites)
}

/// Runs all switches of a network, over all that these readers give, until nothing is left; what leaves goes to the files, in parts, of which the
/// last stays at the switches. What is wanted of each is noted, and so is what its ports send, if there are origins to note it.
///
/// The errors are those of [`run_unchecked`], in its order; so is the cost.
pub(crate) fn run_through<R: Read, F: NewFile>(
    alloc: Global,
    network: &Network,
    readers: &mut [R],
    wanted: Wanted,
    origins: &mut Option<Origins<'_>>,
    files: &mut [F],
) -> Result<Vec<Site>, NetworkRunFault>
    requires readers { length readers.old ≡ length (open_ends network.now) }
    requires files { length files.old ≡ length (all_ends network.now) }
    ensures ok { IfOk result (λ sites. IsRunOver R.remaining F.contents network.now readers.old files.old files.new sites.items) }
    ensures noted { IfOk result (λ sites. HasNoted network.now (keeps_lists wanted) origins.old origins.new sites.items) }
    ensures err { IfErr result (IsFaultOver R.remaining network.now readers.old (IsUncheckedRefusal network.now)) }
{
    out_goes_on();
    out_is_in_order();
    what_is_written_is_a_capture();
    each_file_has_one_reading();
    let mut intake = Intake::open(alloc, network, readers)?;
    match go_on(alloc, network, &mut intake, readers, wanted, origins, files) {
        Ok(sites) => {
            intake.end(readers)?;
            Ok(sites)
        }
        Err(Stop::Intake(fault)) => Err(fault),
        Err(Stop::Run(NetworkRunFault::Memory)) => Err(NetworkRunFault::Memory),
        Err(Stop::Run(fault)) => {
            intake.end(readers)?;
            Err(fault)
        }
    }
}

/// Runs each switch of a network over captures that agree with the wires, whatever the loads, and returns what each counts, in file order.
///
/// The readers give the captures of the ports to which no wire goes, by switch and then by rising number. What leaves each port of each
/// switch goes to its file, in parts, in the same order. All switches run together, by time: in windows that are no longer than the least
/// time from an arrival at one switch to the arrival that it causes at the next, so that what comes in before a window's end is there when
/// it begins.
///
/// # Errors
///
/// The first that holds, in this order:
///
/// - `Read` with the place of the first reader that fails.
/// - `Capture` of the first text that is given and is no capture, by switch and then by port, with its first fault.
/// - `Line` if the network file says that end systems have one line each: of the first port, by switch and then by port, whose records did not
///   come one after the other, by stamps that may be rounded down, with the number of the first one that came too soon.
/// - `WrongWires` if two wires go to one port; a file with such wires is not read.
/// - `Capture` with `Late` of the first record, in the order in which they are carried, that comes over a wire in the last second that pcap can
///   hold. That cannot be if the loads are accepted, the wires have an order, each takes at most a millisecond, and each given frame came at
///   least 64 seconds before the last second that a stamp can hold.
///
/// So that this is the first, all captures are read on to their ends then; none is read twice. Which reader failed, and which record came late
/// over which wire, is tested only. `Memory` if memory ran out, at any time. Nothing is said then of what the files have, of which some may have
/// parts of an output. A file that fails is no error here: it answers when it is settled.
///
/// O(records + starts) visits of switches at most, O(switches + captures) for each window, O(captures) for each record that is given,
/// O(wires) for each record that leaves and for each wire that begins at its port, and O(bytes) of what the wires bring and of what leaves, beside
/// the switches' own work. Of each capture no more is kept than a piece and the pieces that records which wait came in, and of what leaves a port
/// no more than a part and a window's.
pub fn run_unchecked<R: Read, F: NewFile>(
    alloc: Global,
    network: &Network,
    readers: &mut [R],
    files: &mut [F],
) -> Result<Vec<Counts<Global>>, NetworkRunFault>
    requires readers { length readers.old ≡ length (open_ends network.now) }
    requires files { length files.old ≡ length (all_ends network.now) }
    ensures ok { IfOk result (λ counts. (given : Given) × (came : List (List Text)) × (left : List Results)
        × AreGivenBy R.remaining network.now readers.old given × IsUncheckedRunOf network.now given came left
        × AreWritten F.contents left files.old files.new counts.items) }
    ensures formed { OnOk result (All IsWellFormed network.now.tables) }
    ensures err { IfErr result (IsFaultOver R.remaining network.now readers.old (IsUncheckedRefusal network.now)) }
{
    out_goes_on();
    out_is_in_order();
    what_is_written_is_a_capture();
    let mut none_noted = None;
    let sites = run_through(
        alloc,
        network,
        readers,
        Wanted::Nothing,
        &mut none_noted,
        files,
    )?;
    Ok(counts_of(alloc, sites, files)?)
}

/// Runs each switch of a network whose loads are accepted, as [`run_unchecked`] does: of each the headline holds.
///
/// The errors are those of [`run_unchecked`], in its order; so is the cost.
pub fn run<R: Read, F: NewFile>(
    alloc: Global,
    network: &ClearedNetwork,
    readers: &mut [R],
    files: &mut [F],
) -> Result<Vec<Counts<Global>>, NetworkRunFault>
    requires readers { length readers.old ≡ length (open_ends network.now) }
    requires files { length files.old ≡ length (all_ends network.now) }
    ensures ok { IfOk result (λ counts. (given : Given) × (came : List (List Text)) × (left : List Results)
        × AreGivenBy R.remaining network.now readers.old given × IsRunOf network.now given came left
        × AreWritten F.contents left files.old files.new counts.items) }
    ensures err { IfErr result (IsFaultOver R.remaining network.now readers.old (IsRefusal network.now)) }
{
    outcomes_isolate();
    run_unchecked(alloc, network.network(), readers, files)
}
