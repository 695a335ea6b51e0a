//! Why a command ends with another status than 0.

ghost use Rattle.std.specs.Prelude.{◌≡◌};

use crate::argument::ArgumentFault;
use crate::network_failure::NetworkFailure;
use afdx_alone::{AloneFault, ReadFault};
use afdx_folder::WriteFault;
use afdx_load::LoadFault;
use afdx_pcap::PcapFault;
use afdx_table::TableFault;
use afdx_wiring::NetworkFault;
use std::alloc::{AllocError, AllocFailed};
use thiserror::Error;

/// Why a command ends with another status than 0. Each message is its variant's name.
#[derive(Debug, Drop, Error)]
pub enum Failure {
    /// All was done, and there was one of what the run is to fail on, or something speaks against the switch that was recorded.
    #[error("Found")]
    Found,
    /// The arguments are refused.
    #[error("Usage")]
    Usage,
    /// An option of `compare` does not fit the table, and this is the first.
    #[error("Argument")]
    Argument(ArgumentFault),
    /// The file of the table holds none, and this is its first refusal.
    #[error("Table")]
    Table(TableFault),
    /// The table asks for more than a port can give, and this is the first rule that is broken.
    #[error("Load")]
    Load(LoadFault),
    /// The input is no capture, and this is its first fault.
    #[error("Capture")]
    Capture(PcapFault),
    /// The file of this port is no capture, and this is its first fault.
    #[error("PortCapture")]
    PortCapture(u8, PcapFault),
    /// The file of what left at this port is no capture, and this is its first fault.
    #[error("OutputCapture")]
    OutputCapture(u8, PcapFault),
    /// What only commands of networks refuse.
    #[error("Network")]
    Network(NetworkFailure),
    /// The folder failed to get the file of this name, or it is not there.
    #[error("Get")]
    Get(String),
    /// The folder failed to put the file of this name.
    #[error("Put")]
    Put(String),
    /// The input failed, or was not read to its end within the bounded number of reads.
    #[error("Read")]
    Read,
    /// The output failed, was interrupted or took nothing.
    #[error("Write")]
    Write,
    /// Out of memory.
    #[error("Memory")]
    Memory,
}

impl From<AllocError> for Failure {
    ghost use Rattle.afdx_messages.specs.declared.failure.Failure.TheVariants.{Memory};

    ghost from_gives = { λ _ failure. failure ≡ Memory };

    fn from(_error: AllocError) -> Failure {
        Failure::Memory
    }
}

impl<T: Drop> From<AllocFailed<T>> for Failure {
    ghost use Rattle.afdx_messages.specs.declared.failure.Failure.TheVariants.{Memory};

    ghost from_gives = { λ _ failure. failure ≡ Memory };

    fn from(_error: AllocFailed<T>) -> Failure {
        Failure::Memory
    }
}

impl From<WriteFault> for Failure {
    ghost use Rattle.afdx_messages.specs.declared.failure.Failure.TheVariants.{Write as WriteFailed};

    ghost from_gives = { λ _ failure. failure ≡ WriteFailed };

    fn from(_error: WriteFault) -> Failure {
        Failure::Write
    }
}

impl From<AloneFault> for Failure {
    ghost use Rattle.afdx_messages.specs.Inner.Failures.{alone_failure};

    ghost from_gives = { λ fault failure. failure ≡ alone_failure fault };

    fn from(e: AloneFault) -> Failure {
        match e {
            AloneFault::Memory => Failure::Memory,
            AloneFault::Capture(fault) => Failure::Capture(fault),
        }
    }
}

impl From<ReadFault> for Failure {
    ghost use Rattle.afdx_messages.specs.Inner.Failures.{read_failure};

    ghost from_gives = { λ fault failure. failure ≡ read_failure fault };

    fn from(e: ReadFault) -> Failure {
        match e {
            ReadFault::Device => Failure::Read,
            ReadFault::Alone(fault) => Failure::from(fault),
        }
    }
}

impl From<TableFault> for Failure {
    ghost use Rattle.afdx_messages.specs.Inner.Failures.{table_failure};

    ghost from_gives = { λ fault failure. failure ≡ table_failure fault };

    fn from(e: TableFault) -> Failure {
        match e {
            TableFault::Memory => Failure::Memory,
            _ => Failure::Table(e),
        }
    }
}

impl From<NetworkFault> for Failure {
    ghost use Rattle.afdx_messages.specs.Inner.Failures.{wiring_failure};

    ghost from_gives = { λ fault failure. failure ≡ wiring_failure fault };

    fn from(e: NetworkFault) -> Failure {
        match e {
            NetworkFault::Memory => Failure::Memory,
            _ => Failure::Network(NetworkFailure::Refused(e, None)),
        }
    }
}
