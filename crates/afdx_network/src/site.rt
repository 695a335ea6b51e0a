//! A switch of a network in the course of a run, and what left it.

ghost use Rattle.std.specs.Prelude.{◌≡◌, ◌<◌, ◌≤◌, ℕ, false, None, Some, List, [], map, length, slice_get, option_map, IfOk, IfErr, OnOk, OnErr};
ghost use Rattle.afdx_units.specs.Time.{last_second};
ghost use Rattle.afdx_count.specs.Run.{counts_of};
ghost use Rattle.afdx_measure.specs.Wanted.{keeps_lists};
ghost use Rattle.afdx_session.specs.Output.{rows_of};
ghost use Rattle.afdx_paced.specs.Paced.{arrivals, put_refusal, not_of_memory, next_sent_of, HasTakenAll};
ghost use Rattle.afdx_table.specs.WellFormed.{IsWellFormed};
ghost use Rattle.afdx_network.specs.declared.fault.NetworkRunFault.TheVariants as fault;
ghost use Rattle.afdx_network.specs.Inner.Outputs.{silent, all_gone, texts_in, gone_in, HaveGone};
ghost use Rattle.afdx_network.specs.Inner.Sites.{after_putting, IsFresh, WentTo, IsHandedOut, HandsOver};

use crate::fault::NetworkRunFault;
use crate::output::Output;
use afdx_count::Counts;
use afdx_folder::NewFile;
use afdx_measure::{Measured, Wanted};
use afdx_paced::{Paced, PacedFault};
use afdx_pcap::Record;
use afdx_port::Sent;
use afdx_table::{PortRow, Table};
use afdx_units::{Stamp, earlier_of};
use std::alloc::{AllocError, Global};
use std::marker::Model;

/// A switch, and the capture of what left each of its ports so far, by rising number.
#[derive(Drop)]
pub(crate) struct Site {
    paced: Paced<'static, Global>,
    outputs: Vec<Output>,
    /// Whether a part of a capture may go to its file.
    is_full: bool,
    /// An instant before which nothing happens there, at hand since each window asks for it.
    next: Option<Stamp>,
}

impl Model for Site {
    ghost use Rattle.afdx_network.specs.Inner.Outputs.{texts_in, gone_in};
    ghost use Rattle.afdx_network.specs.Inner.Sites.{Site as Seen};

    ghost Value = { Seen };

    ghost view = { λ s. record { paced = s.paced; left = texts_in s.outputs.items; gone = gone_in s.outputs.items; next = s.next } };
}

/// Makes a capture of no frames for each port.
fn silence(alloc: Global, ports: &[PortRow]) -> Result<Vec<Output>, AllocError>
    ensures { IfOk result (λ outputs. outputs.items ≡ map (λ p. silent p.id) ports.now) }
{
    let mut outputs = Vec::with_capacity(alloc, ports.len())?;
    for row in ports {
        outputs.push(Output::new(alloc, row.id)?)?;
    }
    Ok(outputs)
}

/// Returns the fault of a run in which a record was not taken in.
fn of_put(why: PacedFault) -> NetworkRunFault
    ensures { not_of_memory why ≡ None → result ≡ fault.Memory }
{
    match why {
        PacedFault::Memory => NetworkRunFault::Memory,
        PacedFault::NoSuchPort | PacedFault::Early => NetworkRunFault::WrongWires,
    }
}

/// Writes what has not gone to the files of the ports.
fn hand_over_all<F: NewFile>(outputs: &mut [Output], files: &mut [F]) -> Result<(), AllocError>
    requires { length files.old ≡ length outputs.old }
    ensures all { OnOk result (outputs.new ≡ map all_gone outputs.old) }
    ensures gone { (start : List F) → HaveGone F.contents start files.old (gone_in outputs.old)
        → OnOk result (HaveGone F.contents start files.new (map (λ text. text.1) (texts_in outputs.old))) }
{
    for place in 0..outputs.len() {
        outputs[place].hand_over(&mut files[place])?;
    }
    Ok(())
}

impl Site {
    /// Makes a switch at which nothing came in, which notes what is wanted of its run.
    pub(crate) fn new(alloc: Global, table: &Table, wanted: Wanted) -> Result<Site, AllocError>
        ensures fresh { IfOk result (λ s. IsFresh (keeps_lists wanted) table.now s) }
        ensures well_formed { IsWellFormed table.now }
    {
        let outputs = silence(alloc, table.ports())?;
        let table = table.copy(alloc)?;
        let paced = Paced::new(alloc, table, wanted)?;
        let next = paced.next();
        Ok(Site {
            paced,
            outputs,
            is_full: false,
            next,
        })
    }

    /// Takes a record that comes in at a port.
    pub(crate) fn put(
        &mut self,
        port: u8,
        frame: Record<'static, Global>,
    ) -> Result<(), NetworkRunFault>
        requires going { self.old.paced.failed ≡ false }
        requires not_late { frame.stamp < last_second }
        ensures ok { OnOk result ((put_refusal self.old.paced port frame.entry.stamp ≡ None) × (self.new ≡ after_putting port frame.entry self.old)) }
        ensures err { OnErr result (self.new ≡ self.old) }
        ensures why { IfErr result (λ why. put_refusal self.old.paced port frame.entry.stamp ≡ None → why ≡ fault.Memory) }
    {
        let stamp = frame.stamp();
        match self.paced.put(port, frame) {
            Ok(()) => {
                self.next = earlier_of(self.next, Some(stamp));
                Ok(())
            }
            Err(fault) => Err(of_put(fault)),
        }
    }

    /// Returns an instant before which nothing happens there. O(1).
    pub(crate) fn next(&self) -> Option<Stamp>
        ensures { result ≡ self.now.next }
    {
        self.next
    }

    /// Goes to an instant.
    pub(crate) fn go_to(&mut self, instant: Stamp) -> Result<(), AllocError>
        requires going { self.old.paced.failed ≡ false }
        requires in_order { self.old.paced.reached ≤ instant }
        ensures { OnOk result (WentTo instant self.old self.new) }
    {
        self.paced.go_to(instant)?;
        self.next = self.paced.next();
        Ok(())
    }

    /// Returns the number of the port at a place.
    pub(crate) fn port(&self, place: usize) -> Option<u8>
        ensures { result ≡ option_map (λ text. text.0) (slice_get self.now.left place) }
    {
        match self.outputs.get(place) {
            Some(output) => Some(output.port()),
            None => None,
        }
    }

    /// Counts the ports.
    pub(crate) fn ports(&self) -> usize
        ensures left { result ≡ length self.now.left }
        ensures gone { result ≡ length self.now.gone }
    {
        self.outputs.len()
    }

    /// Returns what the next record that left a port was sent as.
    pub(crate) fn next_sent(&self, port: u8) -> Option<Sent>
        requires going { self.now.paced.failed ≡ false }
        ensures { result ≡ next_sent_of self.now.paced port }
    {
        self.paced.next_sent(port)
    }

    /// Appends the next record that left the port at a place to its capture.
    pub(crate) fn hand_out(
        &mut self,
        place: usize,
        port: u8,
    ) -> Result<Option<Record<'static, Global>>, AllocError>
        requires going { self.old.paced.failed ≡ false }
        requires place { (text : List ℕ) × (slice_get self.old.left place ≡ Some (port, text)) }
        ensures { IfOk result (λ out. IsHandedOut self.old self.new place port out) }
    {
        match self.paced.next_out(port)? {
            Some(frame) => {
                let output = &mut self.outputs[place];
                output.push(&frame)?;
                if output.is_full() {
                    self.is_full = true;
                }
                Ok(Some(frame))
            }
            None => Ok(None),
        }
    }

    /// Counts the records that have left the port at a place.
    pub(crate) fn count(&self, place: usize) -> usize {
        match self.outputs.get(place) {
            Some(output) => output.count(),
            None => 0,
        }
    }

    /// Writes what has left to the files of the ports, if there is a part of one.
    pub(crate) fn hand_over<F: NewFile>(&mut self, files: &mut [F]) -> Result<(), AllocError>
        requires { length files.old ≡ length self.old.gone }
        ensures same { OnOk result (HandsOver self.old self.new) }
        ensures gone { (start : List F) → HaveGone F.contents start files.old self.old.gone → OnOk result (HaveGone F.contents start files.new self.new.gone) }
    {
        if !self.is_full {
            return Ok(());
        }
        self.is_full = false;
        hand_over_all(&mut self.outputs, files)
    }

    /// Writes all that has left to the files of the ports, and returns the counts of what came in.
    pub(crate) fn finish<F: NewFile>(self, files: &mut [F]) -> Result<Counts<Global>, AllocError>
        requires going { self.paced.failed ≡ false }
        requires files { length files.old ≡ length self.gone }
        ensures counts { IfOk result (λ counts. counts ≡ counts_of self.paced.table (rows_of self.paced.table (arrivals self.paced))) }
        ensures gone { (start : List F) → HaveGone F.contents start files.old self.gone
            → OnOk result (HaveGone F.contents start files.new (map (λ text. text.1) self.left)) }
    {
        let Site {
            paced,
            mut outputs,
            ..
        } = self;
        hand_over_all(&mut outputs, files)?;
        let (counts, _) = paced.finish()?;
        Ok(counts)
    }

    /// Returns the counts of what came in, and what was wanted of the run. What has left is let go.
    pub(crate) fn into_measured(
        self,
    ) -> Result<(Counts<Global>, Measured<'static, Global>), AllocError>
        requires going { self.paced.failed ≡ false }
        ensures counts { IfOk result (λ both. both.0 ≡ counts_of self.paced.table (rows_of self.paced.table (arrivals self.paced))) }
        ensures switch { IfOk result (λ both. HasTakenAll self.paced both.1.run) }
        ensures kept { IfOk result (λ both. both.1.keeps ≡ self.paced.keeps) }
    {
        self.paced.finish()
    }
}
