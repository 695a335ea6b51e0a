//! Why a command of networks was not served.

use afdx_pcap::PcapFault;
use afdx_table::TableFault;
use afdx_wiring::{NetworkFault, Short};

/// A rule of jitters by which rows of tables are refused.
#[derive(Clone, Copy, Debug, PartialEq, Eq)]
pub enum JitterRule {
    /// J1: a row's jitter is not enough.
    Jitter,
    /// J2: a row needs more than a table can have.
    NoJitter,
}

/// Why a command of networks was not served, beside what can befall any command. A switch is named by its name.
#[derive(Debug, Drop)]
pub enum NetworkFailure {
    /// The network is refused, and this is the first refusal, with the name of the switch that it is of, if it is of one.
    Refused(NetworkFault, Option<String>),
    /// The file of the table of this switch holds none, and this is its first refusal.
    Table(TableFault, String),
    /// What comes in at this port of this switch is no capture, and this is its first fault.
    Capture(u8, PcapFault, String),
    /// These rows, by switch and in the order of its table, are refused by the rule. The names are those of all switches, in file order.
    Rows(JitterRule, Vec<Short>, Vec<String>),
    /// R2: what was given for this port of this switch did not come over one line; this record, from 1, is the first that came too soon.
    Line(u8, u64, String),
}
