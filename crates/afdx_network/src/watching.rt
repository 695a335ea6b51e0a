//! A run of a network of which nothing goes out: what is asked of it.

ghost use Rattle.std.specs.Prelude.{◌≡◌, All, List, length, IfErr, IfOk};
ghost use Rattle.afdx_measure.specs.Wanted.{keeps_lists};
ghost use Rattle.afdx_session.specs.Texts.{Text};
ghost use Rattle.afdx_session.specs.Outcome.{Results};
ghost use Rattle.afdx_network.specs.Runs.{Given, IsUncheckedRunOf};
ghost use Rattle.afdx_network.specs.Given.{open_ends, AreGivenBy, IsUncheckedRefusal, IsFaultOver};
ghost use Rattle.afdx_network.specs.Watched.{AreEnded, HaveSent};

use crate::fault::NetworkRunFault;
use crate::given::all_ends;
use crate::running::run_through;
use crate::windows::measured_of;
use afdx_count::Counts;
use afdx_folder::NewFile;
use afdx_measure::{Measured, Wanted};
use afdx_network_check::Network;
use afdx_origins::Origins;
use afdx_paced::laws::{out_goes_on, out_is_in_order, sends_go_on};
use afdx_pcap::laws::what_is_written_is_a_capture;
use std::alloc::{AllocError, Global};
use std::io::Read;

/// What is known of a run of a network: of each switch, in file order, its counts and what was wanted of it; and the delays from end to end.
#[derive(Drop)]
pub struct Watched<'n> {
    pub switches: Vec<(Counts<Global>, Measured<'static, Global>)>,
    pub origins: Origins<'n>,
}

/// A file that keeps nothing.
#[derive(Drop)]
struct Nowhere {}

impl NewFile for Nowhere {
    fn append(&mut self, _bytes: &[u8]) -> Result<(), AllocError> {
        Ok(())
    }
}

/// Makes a file that keeps nothing for each of so many ports.
fn to_nowhere(alloc: Global, count: usize) -> Result<Vec<Nowhere>, AllocError>
    ensures { IfOk result (λ files. length files.items ≡ count) }
{
    let mut files = Vec::new(alloc);
    for _place in 0..count {
        files.push(Nowhere {})?;
    }
    Ok(files)
}

/// Runs each switch of a network as [`run_unchecked`](crate::run_unchecked) does, and notes what is wanted of each, and the delays from end
/// to end. What leaves goes nowhere.
///
/// The errors are those of [`run_unchecked`](crate::run_unchecked), in its order; so is the cost, and that of what is noted.
pub fn run_watched<'n, R: Read>(
    alloc: Global,
    network: &'n Network,
    readers: &mut [R],
    wanted: Wanted,
) -> Result<Watched<'n>, NetworkRunFault>
    requires { length readers.old ≡ length (open_ends network.now) }
    ensures ok { IfOk result (λ watched. (given : Given) × (came : List (List Text)) × (left : List Results) × AreGivenBy R.remaining network.now readers.old given
        × IsUncheckedRunOf network.now given came left × AreEnded network.now.tables came left watched.switches.items × HaveSent network.now watched.switches.items watched.origins) }
    ensures keeps { IfOk result (λ watched. All (λ both. both.1.keeps ≡ keeps_lists wanted) watched.switches.items) }
    ensures err { IfErr result (IsFaultOver R.remaining network.now readers.old (IsUncheckedRefusal network.now)) }
{
    out_goes_on();
    out_is_in_order();
    sends_go_on();
    what_is_written_is_a_capture();
    let ends = all_ends(alloc, network)?;
    let mut files = to_nowhere(alloc, ends.len())?;
    let mut origins = Some(Origins::new(alloc, network)?);
    let sites = run_through(alloc, network, readers, wanted, &mut origins, &mut files)?;
    let Some(origins) = origins else {
        return Err(NetworkRunFault::Memory);
    };
    let switches = measured_of(alloc, sites)?;
    Ok(Watched { switches, origins })
}
