//! What left a port of a switch, as a capture that goes to a file in parts.

ghost use Rattle.std.specs.Prelude.{◌≡◌, [], ◌++◌, length, IfOk, OnOk, OnErr};
ghost use Rattle.std.specs.Io.KnownBytes.{Appends};
ghost use Rattle.afdx_pcap.specs.Text.{record_text, capture_text};
ghost use Rattle.afdx_network.specs.Inner.Outputs.{all_gone};

use afdx_folder::NewFile;
use afdx_past::Gone;
use afdx_pcap::{Record, write_frame, write_header};
use std::alloc::{AllocError, Global};
use std::marker::Model;

/// The least number of bytes of a capture that go to its file while a run goes on: so many that the calls of the system are few, and so
/// few that those of all ports of a network are little memory.
const PART: usize = 16_384;

/// The capture of what left a port so far: the part that has gone to the port's file, of which nothing is kept, and the part that has not.
#[derive(Drop)]
pub(crate) struct Output {
    port: u8,
    gone: Gone<u8>,
    text: Vec<u8>,
    /// How many records it has.
    count: usize,
}

impl Model for Output {
    ghost use Rattle.afdx_network.specs.Inner.Outputs.{Output as Seen};

    ghost Value = { Seen };

    ghost view = { λ o. record { port = o.port; gone = o.gone.items; text = o.text.items } };
}

impl Output {
    /// Makes the capture of a port that nothing left.
    pub(crate) fn new(alloc: Global, port: u8) -> Result<Output, AllocError>
        ensures { IfOk result (λ o. o ≡ record { port = port; gone = []; text = capture_text [] }) }
    {
        let mut text = Vec::new(alloc);
        write_header(&mut text)?;
        Ok(Output {
            port,
            gone: Gone::new(),
            text,
            count: 0,
        })
    }

    /// Returns the number of the port. O(1).
    pub(crate) fn port(&self) -> u8
        ensures { result ≡ self.now.port }
    {
        self.port
    }

    /// Returns how many records it has. O(1).
    pub(crate) fn count(&self) -> usize {
        self.count
    }

    /// Returns whether there is a part that may go to the file. O(1).
    pub(crate) fn is_full(&self) -> bool {
        self.text.len() >= PART
    }

    /// Appends a record that left. O(bytes).
    pub(crate) fn push(&mut self, frame: &Record<'_, Global>) -> Result<(), AllocError>
        ensures ok { OnOk result (self.new ≡ record self.old { text = self.old.text ++ record_text (record frame.now { original = length frame.now.bytes }) }) }
        ensures err { OnErr result (self.new ≡ self.old) }
    {
        write_frame(&mut self.text, frame.stamp(), frame.bytes())?;
        self.count = self.count.saturating_add(1);
        Ok(())
    }

    /// Writes what has not gone to the file. The room for it stays for what comes next. O(bytes).
    pub(crate) fn hand_over<F: NewFile>(&mut self, file: &mut F) -> Result<(), AllocError>
        ensures ok { OnOk result ((self.new ≡ all_gone self.old) × Appends (F.contents file.old) (F.contents file.new) self.old.text) }
        ensures err { OnErr result (self.new ≡ self.old) }
    {
        file.append(&self.text)?;
        self.gone = self.gone.and_all(&self.text);
        self.text.clear();
        Ok(())
    }
}
