//! What comes in from outside in an outage.

ghost use Rattle.std.specs.Prelude.{◌≡◌, List, length, IfOk, Some, if◌then◌else◌};
ghost use Rattle.afdx_pcap.specs.Text.{capture_text};
ghost use Rattle.afdx_network.specs.Outage.{coming, comes, AreComing};

use afdx_network_check::Network;
use afdx_pcap::write_header;
use afdx_wiring::End;
use std::alloc::{AllocError, Global};
use std::io::Read;

/// A capture of no frames, of which so many bytes were read.
#[derive(Drop)]
struct Silence {
    text: Vec<u8>,
    read: usize,
}

/// What comes in at a port to which no wire goes: what its reader gives, or a capture of no frames if its switch is down.
#[derive(Drop)]
pub struct Incoming<R: Drop> {
    reader: R,
    silence: Option<Silence>,
}

impl Read for Silence {
    ghost use Rattle.afdx_network.specs.Outage.{still_silent};

    ghost remaining = { still_silent };

    fn read(&mut self, buf: &mut [u8]) -> std::io::Result<usize> {
        let Some(mut rest) = self.text.get(self.read..) else {
            return Ok(0);
        };
        let count = rest.read(buf)?;
        self.read += count;
        Ok(count)
    }
}

impl<R: Read + Drop> Read for Incoming<R> {
    ghost use Rattle.afdx_network.specs.Outage.{coming};

    ghost remaining = { coming R.remaining };

    fn read(&mut self, buf: &mut [u8]) -> std::io::Result<usize> {
        match &mut self.silence {
            Some(silence) => silence.read(buf),
            None => self.reader.read(buf),
        }
    }
}

/// Makes what comes in at a port of a switch that may be down.
fn heard<R: Read + Drop>(alloc: Global, reader: R, is_down: bool) -> Result<Incoming<R>, AllocError>
    ensures { IfOk result (λ i. coming R.remaining i ≡ comes R.remaining is_down reader) }
{
    if !is_down {
        return Ok(Incoming {
            reader,
            silence: None,
        });
    }
    let mut text = Vec::new(alloc);
    write_header(&mut text)?;
    Ok(Incoming {
        reader,
        silence: Some(Silence { text, read: 0 }),
    })
}

/// Makes what comes in at these ports, of which these readers give the captures, one for each. An error says that memory ran out. O(ports).
pub fn incoming_at<R: Read + Drop>(
    alloc: Global,
    network: &Network,
    ends: &[End],
    readers: Vec<R>,
) -> Result<Vec<Incoming<R>>, AllocError>
    requires { length readers.items ≡ length ends.now }
    ensures { IfOk result (λ all. AreComing R.remaining network.now.layout ends.now readers.items all.items) }
{
    let layout = network.layout();
    let mut all = Vec::with_capacity(alloc, readers.len())?;
    for reader in readers {
        let is_down = layout.is_down(ends[all.len()].switch);
        all.push(heard(alloc, reader, is_down)?)?;
    }
    Ok(all)
}
