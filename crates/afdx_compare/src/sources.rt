//! Which captures are compared, and why they are not.

ghost use Rattle.std.specs.Prelude.{◌≡◌, ◌<◌, ◌++◌, length, [], ◌∷◌, slice_get, Some, IfOk, OnOk};
ghost use Rattle.afdx_compare.specs.Sources.{input_clock, later_by, sooner_by, output_clock, source_of, inputs_of, outputs_from, output_clocks, sources_of};
ghost use Rattle.afdx_compare.specs.Sources.{IsFaultOf, IsWithin};

use afdx_merging::{Clock, MergeFault};
use afdx_pcap::PcapFault;
use afdx_recordings::Recordings;
use afdx_table::{PortRow, Table};
use std::alloc::{AllocError, Allocator};
use std::marker::Model;

/// Why captures are not compared.
#[derive(Clone, Copy, Debug, PartialEq, Eq)]
pub enum CompareFault {
    /// The reader at this place failed; those before it were read to their ends.
    Read(usize),
    /// What came at this port is no capture, and this is its first fault. All were read, and those of what came at lower ports are captures.
    Came(u8, PcapFault),
    /// The same of what left at this port; all of what came are captures.
    Left(u8, PcapFault),
    /// Out of memory.
    Memory,
}

impl From<AllocError> for CompareFault {
    ghost use Rattle.afdx_compare.specs.declared.sources.CompareFault.TheVariants.{Memory};

    ghost from_gives = { λ _ e. e ≡ Memory };

    fn from(_error: AllocError) -> CompareFault {
        CompareFault::Memory
    }
}

/// Which capture a record is of.
#[derive(Clone, Copy, Debug, PartialEq, Eq)]
pub(crate) struct Source {
    /// The number of its port, and the port's place in the table.
    pub(crate) port: u8,
    pub(crate) place: usize,
    /// Whether it has what left; else what came.
    pub(crate) leaves: bool,
}

/// A capture of what came at each port, and one of what left at each output port that was recorded, each by rising port.
#[derive(Drop)]
pub(crate) struct Sources<A: Allocator> {
    captures: Vec<Source, A>,
    clocks: Vec<Clock, A>,
}

impl<A: Allocator> Model for Sources<A> {
    ghost use Rattle.afdx_compare.specs.Sources.{Sources as Seen};

    ghost Value = { Seen };

    ghost view = { λ s. record { captures = s.captures.items; clocks = s.clocks.items } };
}

/// Makes the clock of what came.
fn input_clock() -> Clock
    ensures { result ≡ input_clock }
{
    Clock {
        later: 0,
        sooner: 0,
        delay: 0,
    }
}

/// Returns by how many nanoseconds an offset makes stamps later.
fn later_by(offset: i64) -> u64
    ensures { result ≡ later_by offset }
{
    if offset < 0 { 0 } else { offset.unsigned_abs() }
}

/// Returns by how many nanoseconds an offset makes stamps sooner.
fn sooner_by(offset: i64) -> u64
    ensures { result ≡ sooner_by offset }
{
    if offset < 0 { offset.unsigned_abs() } else { 0 }
}

/// Makes the clock of what left at a port: its records are in order by the latest instant at which by the stamps the line was free again.
fn output_clock(port: &PortRow, recordings: &Recordings) -> Clock
    ensures { result ≡ output_clock recordings.now port.now }
{
    let offset = recordings.offsets.at(port.id);
    let gap = recordings.stamps.gap() * u64::from(port.speed.tick());
    Clock {
        later: later_by(offset),
        sooner: sooner_by(offset),
        delay: gap + recordings.tolerance,
    }
}

/// Adds a capture of the port at a place.
fn add<A: Allocator + Copy>(
    sources: &mut Sources<A>,
    port: &PortRow,
    place: usize,
    leaves: bool,
    clock: Clock,
) -> Result<(), AllocError>
    ensures { OnOk result (sources.new ≡ record {
      captures = sources.old.captures ++ source_of place leaves port.now ∷ [];
      clocks = sources.old.clocks ++ clock ∷ [];
    }) }
{
    sources.captures.push(Source {
        port: port.id,
        place,
        leaves,
    })?;
    sources.clocks.push(clock)?;
    Ok(())
}

impl<A: Allocator + Copy> Sources<A> {
    /// Lists the captures of a table's ports.
    pub(crate) fn new(
        alloc: A,
        table: &Table,
        recordings: &Recordings,
    ) -> Result<Sources<A>, AllocError>
        ensures { IfOk result (λ s. s ≡ sources_of table.now recordings.now) }
    {
        let mut sources = Sources {
            captures: Vec::new(alloc),
            clocks: Vec::new(alloc),
        };
        sources.add_inputs(table)?;
        sources.add_outputs(table, recordings)?;
        Ok(sources)
    }

    /// Adds the captures of what came.
    fn add_inputs(&mut self, table: &Table) -> Result<(), AllocError>
        ensures { OnOk result (self.new ≡ record {
          captures = self.old.captures ++ (inputs_of table.now).captures;
          clocks = self.old.clocks ++ (inputs_of table.now).clocks;
        }) }
    {
        for (place, port) in table.ports().iter().enumerate() {
            add(self, port, place, false, input_clock())?;
        }
        Ok(())
    }

    /// Adds the captures of what left.
    fn add_outputs(&mut self, table: &Table, recordings: &Recordings) -> Result<(), AllocError>
        ensures { OnOk result (self.new ≡ record {
          captures = self.old.captures ++ outputs_from recordings.now.outputs 0 table.now.ports;
          clocks = self.old.clocks ++ output_clocks recordings.now table.now.ports;
        }) }
    {
        for (place, port) in table.ports().iter().enumerate() {
            if recordings.outputs.has(port.id) {
                add(self, port, place, true, output_clock(port, recordings))?;
            }
        }
        Ok(())
    }

    /// Returns their clocks. O(1).
    pub(crate) fn clocks(&self) -> &[Clock]
        ensures { result.now ≡ self.now.clocks }
    {
        &self.clocks
    }

    /// Returns the capture at a place. O(1).
    pub(crate) fn at(&self, place: usize) -> Source
        requires { place < length self.now.captures }
        ensures { slice_get self.now.captures place ≡ Some result }
    {
        self.captures[place]
    }

    /// Returns the same fault, said of a port. O(1).
    pub(crate) fn fault(&self, fault: MergeFault) -> CompareFault
        requires { IsWithin (length self.now.captures) fault }
        ensures { IsFaultOf self.now.captures fault result }
    {
        match fault {
            MergeFault::Memory => CompareFault::Memory,
            MergeFault::Read(place) => CompareFault::Read(place),
            MergeFault::Capture(place, why) => {
                let source = self.at(place);
                if source.leaves {
                    CompareFault::Left(source.port, why)
                } else {
                    CompareFault::Came(source.port, why)
                }
            }
        }
    }
}
