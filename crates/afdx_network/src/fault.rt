//! Why there is no run of a network.

ghost use Rattle.std.specs.Prelude.{◌≡◌};

use afdx_pcap::PcapFault;
use std::alloc::{AllocError, AllocFailed};

/// Why there is no run of a network. A switch is named by its place in the network file, from 0.
#[derive(Clone, Copy, Debug, PartialEq, Eq)]
pub enum NetworkRunFault {
    /// A reader failed, the one at this place. That it failed, and is the first that did, is tested only.
    Read(usize),
    /// What comes in at this port of a switch is no capture, and this is its first fault.
    Capture(usize, u8, PcapFault),
    /// What was given for this port of a switch did not come over one line, as the network file says: this record, from 1, came too soon.
    Line(usize, u8, u64),
    /// Two wires go to one port, as no two of a file do.
    WrongWires,
    /// Out of memory.
    Memory,
}

impl From<AllocError> for NetworkRunFault {
    ghost use Rattle.afdx_network.specs.declared.fault.NetworkRunFault.TheVariants.{Memory};

    ghost from_gives = { λ _ fault. fault ≡ Memory };

    fn from(_error: AllocError) -> NetworkRunFault {
        NetworkRunFault::Memory
    }
}

impl<T: Drop> From<AllocFailed<T>> for NetworkRunFault {
    ghost use Rattle.afdx_network.specs.declared.fault.NetworkRunFault.TheVariants.{Memory};

    ghost from_gives = { λ _ fault. fault ≡ Memory };

    fn from(_error: AllocFailed<T>) -> NetworkRunFault {
        NetworkRunFault::Memory
    }
}

/// Where a run of a network stopped.
#[derive(Clone, Copy, Debug, PartialEq, Eq)]
pub(crate) enum Stop {
    /// What is given was not read on, and no more of it is to be read.
    Intake(NetworkRunFault),
    /// Something else; what is given may be read on.
    Run(NetworkRunFault),
}

impl From<NetworkRunFault> for Stop {
    ghost use Rattle.afdx_network.specs.declared.fault.Stop.TheVariants.{Run};

    ghost from_gives = { λ fault stop. stop ≡ Run fault };

    fn from(fault: NetworkRunFault) -> Stop {
        Stop::Run(fault)
    }
}

impl From<AllocError> for Stop {
    ghost use Rattle.afdx_network.specs.declared.fault.NetworkRunFault.TheVariants.{Memory};
    ghost use Rattle.afdx_network.specs.declared.fault.Stop.TheVariants.{Run};

    ghost from_gives = { λ _ stop. stop ≡ Run Memory };

    fn from(_error: AllocError) -> Stop {
        Stop::Run(NetworkRunFault::Memory)
    }
}
