//! What is given for a run: captures that readers give, of the ports to which no wire goes.

ghost use Rattle.std.specs.Prelude.{◌≡◌, ◌++◌, [], List, None, length, IfOk, IfErr, OnOk, IfSome, IfNone};
ghost use Rattle.afdx_merging.specs.Merge.{Arrival as Came};
ghost use Rattle.afdx_network_check.specs.Net.{Network as Net};
ghost use Rattle.afdx_network.specs.Given.{open_ends};
ghost use Rattle.afdx_network.specs.Inner.Intake.{HasTaken, next_of, IsNextIn, HasTakenAll, AreMet, AreOverLines, IsLineFault, IsAmong, IsFaultAt, IsIntakeFault};

use crate::fault::NetworkRunFault;
use crate::given::open_ends;
use crate::line::Line;
use crate::one_line::{first_breach, given_lines, meet};
use afdx_merging::{MergeFault, Merging, same_clocks};
use afdx_network_check::Network;
use afdx_pcap::Record;
use afdx_units::Stamp;
use afdx_wiring::End;
use std::alloc::Global;
use std::io::Read;

/// The captures that are given, of each of which the next record is at hand; the port of each, and its line if the network file says that end
/// systems have one.
#[derive(Drop)]
pub(crate) struct Intake {
    pub(crate) ends: Vec<End>,
    pub(crate) lines: Vec<Line>,
    pub(crate) merging: Merging<Global>,
}

/// Says of a port what a merge says of a place.
fn fault_at(ends: &[End], fault: MergeFault) -> NetworkRunFault
    requires { IsAmong (length ends.now) fault }
    ensures { IsFaultAt ends.now fault result }
{
    match fault {
        MergeFault::Memory => NetworkRunFault::Memory,
        MergeFault::Read(place) => NetworkRunFault::Read(place),
        MergeFault::Capture(place, why) => {
            let end = ends[place];
            NetworkRunFault::Capture(end.switch, end.port, why)
        }
    }
}

impl Intake {
    /// Opens the captures that these readers give, of the ports of a network to which no wire goes, in their order. The first record of each is
    /// read.
    ///
    /// # Errors
    ///
    /// Those of [`Intake::next`].
    pub(crate) fn open<R: Read>(
        alloc: Global,
        network: &Network,
        readers: &mut [R],
    ) -> Result<Intake, NetworkRunFault>
        requires { length readers.old ≡ length (open_ends network.now) }
        ensures ok { IfOk result (λ i. HasTaken R.remaining network.now readers.old readers.new i []) }
        ensures err { IfErr result (IsIntakeFault R.remaining network.now readers.old) }
    {
        let ends = open_ends(alloc, network)?;
        let lines = given_lines(alloc, network)?;
        let clocks = same_clocks(alloc, &ends)?;
        match Merging::open(alloc, &clocks, readers) {
            Ok(merging) => Ok(Intake {
                ends,
                lines,
                merging,
            }),
            Err(fault) => Err(fault_at(&ends, fault)),
        }
    }

    /// Returns the stamp of the first of the next records, if there is one. O(captures).
    pub(crate) fn least(&self) -> Option<Stamp>
        ensures { result ≡ next_of self.now }
    {
        self.merging.least()
    }

    /// Reads the next record of all captures, by stamp, and returns it with the port at which it comes in. O(captures), beside what is read.
    ///
    /// # Errors
    ///
    /// `Memory` if memory ran out. Else the readers are read to their ends, by rising place, up to the first one that fails: `Read` with its
    /// place. If none fails, `Capture` with the port of the first one that gives no capture, and its first fault. It is of no use after an
    /// error.
    pub(crate) fn next<R: Read>(
        &mut self,
        alloc: Global,
        readers: &mut [R],
    ) -> Result<Option<(End, Record<'static, Global>)>, NetworkRunFault>
        requires { (net : Net) × (first : List R) × (came : List Came) × HasTaken R.remaining net first readers.old self.old came }
        ensures some { IfOk result (λ found. IfSome found (λ both. (net : Net) (first : List R) (came : List Came)
            → HasTaken R.remaining net first readers.old self.old came
            → IsNextIn R.remaining net first readers.new self.old self.new came both.0 both.1)) }
        ensures none { IfOk result (λ found. IfNone found (next_of self.old ≡ None)) }
        ensures err { IfErr result (λ why. (net : Net) (first : List R) (came : List Came)
            → HasTaken R.remaining net first readers.old self.old came → IsIntakeFault R.remaining net first why) }
    {
        match self.merging.next(readers) {
            Ok(Some(arrival)) => {
                let to = self.ends[arrival.place];
                meet(&mut self.lines, &arrival);
                let frame = arrival.head.into_frame(alloc)?;
                Ok(Some((to, frame)))
            }
            Ok(None) => Ok(None),
            Err(fault) => Err(fault_at(&self.ends, fault)),
        }
    }

    /// Fails with `Line` if records came too soon for their line: with the first port of such records, and the first one there that did.
    /// O(captures).
    fn check_lines(&self) -> Result<(), NetworkRunFault>
        requires { (net : Net) × (came : List Came) × (self.now.ends.items ≡ open_ends net) × AreMet net self.now.lines.items came }
        ensures ok { OnOk result ((net : Net) (came : List Came) → AreMet net self.now.lines.items came → AreOverLines net came) }
        ensures err { IfErr result (λ why. (net : Net) (came : List Came) → self.now.ends.items ≡ open_ends net → AreMet net self.now.lines.items came → IsLineFault net came why) }
    {
        match first_breach(&self.lines) {
            Some((place, number)) => {
                let end = self.ends[place];
                Err(NetworkRunFault::Line(end.switch, end.port, number))
            }
            None => Ok(()),
        }
    }

    /// Reads all captures on to their ends.
    ///
    /// # Errors
    ///
    /// Those of [`Intake::next`]. If all are captures, it is `Line` if the network file says that end systems have one line each and the
    /// records of a port did not come over one: with the first such port, and the first record there that came too soon.
    ///
    /// O(what is left of them), and O(captures) for each record.
    pub(crate) fn end<R: Read>(mut self, readers: &mut [R]) -> Result<(), NetworkRunFault>
        requires { (net : Net) × (first : List R) × (came : List Came) × HasTaken R.remaining net first readers.old self came }
        ensures ok { OnOk result ((net : Net) (first : List R) (came : List Came) → HasTaken R.remaining net first readers.old self came
            → HasTakenAll R.remaining net first self came) }
        ensures err { IfErr result (λ why. (net : Net) (first : List R) (came : List Came)
            → HasTaken R.remaining net first readers.old self came → IsIntakeFault R.remaining net first why) }
    {
        for _record in 0..u64::MAX {
            match self.merging.next(readers) {
                Ok(Some(arrival)) => meet(&mut self.lines, &arrival),
                Ok(None) => return self.check_lines(),
                Err(fault) => return Err(fault_at(&self.ends, fault)),
            }
        }
        Err(NetworkRunFault::Memory)
    }
}
