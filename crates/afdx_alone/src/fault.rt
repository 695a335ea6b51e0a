//! Why there is no answer.

ghost use Rattle.std.specs.Prelude.{◌≡◌};

use afdx_pcap::PcapFault;
use std::alloc::AllocError;
use thiserror::Error;

/// Why there is no answer. Each message is its variant's name.
#[derive(Clone, Copy, Debug, PartialEq, Eq, Error)]
pub enum AloneFault {
    /// The input is no capture, and this is its first fault.
    #[error("Capture")]
    Capture(PcapFault),
    /// Out of memory.
    #[error("Memory")]
    Memory,
}

impl From<AllocError> for AloneFault {
    ghost use Rattle.afdx_alone.specs.declared.fault.AloneFault.TheVariants.{Memory};

    ghost from_gives = { λ _ e. e ≡ Memory };

    fn from(_error: AllocError) -> AloneFault {
        AloneFault::Memory
    }
}

impl From<PcapFault> for AloneFault {
    ghost use Rattle.afdx_alone.specs.Faults.{fault_of};

    ghost from_gives = { λ fault e. e ≡ fault_of fault };

    fn from(fault: PcapFault) -> AloneFault {
        match fault {
            PcapFault::Memory => AloneFault::Memory,
            _ => AloneFault::Capture(fault),
        }
    }
}

/// Why there is no answer to what a reader gives.
#[derive(Clone, Copy, Debug, PartialEq, Eq)]
pub enum ReadFault {
    /// A read failed, or all turns were used up.
    Device,
    /// There is none to what it gave.
    Alone(AloneFault),
}

impl From<AllocError> for ReadFault {
    ghost use Rattle.afdx_alone.specs.declared.fault.AloneFault.TheVariants.{Memory};
    ghost use Rattle.afdx_alone.specs.declared.fault.ReadFault.TheVariants.{Alone};

    ghost from_gives = { λ _ e. e ≡ Alone Memory };

    fn from(_error: AllocError) -> ReadFault {
        ReadFault::Alone(AloneFault::Memory)
    }
}

impl From<AloneFault> for ReadFault {
    ghost use Rattle.afdx_alone.specs.declared.fault.ReadFault.TheVariants.{Alone};

    ghost from_gives = { λ fault e. e ≡ Alone fault };

    fn from(fault: AloneFault) -> ReadFault {
        ReadFault::Alone(fault)
    }
}
