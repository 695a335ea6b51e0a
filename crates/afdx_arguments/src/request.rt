//! What the arguments of a command line ask for.

use crate::fail_on::FailOn;
use afdx_alone::Alone;
use afdx_csv::Form;
use afdx_recordings::Recordings;

/// The files of a run, as they were written.
#[derive(Clone, Copy, Debug, PartialEq, Eq)]
pub struct Paths<'a> {
    /// The file of the configuration table.
    pub table: &'a str,
    /// The folder of the captures that come in.
    pub input: &'a str,
    /// The folder of the files that are put.
    pub output: &'a str,
    /// Whether the table's load is left unchecked.
    pub unchecked: bool,
}

/// What is asked of a run beside its files.
#[derive(Clone, Copy, Debug, PartialEq, Eq)]
pub struct RunOptions {
    /// Whether its verdict is the last line of its report.
    pub verdict: bool,
    /// What it is to fail on.
    pub fail_on: FailOn,
    /// The form of its report.
    pub form: Form,
}

/// What is asked of a trace beside the files of its run.
#[derive(Debug, Drop)]
pub struct TraceOptions {
    /// The links whose lines are written; if it is empty, the lines of all frames are.
    pub links: Vec<u16>,
    /// Whether stamps count from that of the first frame that came.
    pub relative: bool,
}

/// The files of a run of which nothing is put, as they were written.
#[derive(Clone, Copy, Debug, PartialEq, Eq)]
pub struct Inputs<'a> {
    /// The file of the configuration table.
    pub table: &'a str,
    /// The folder of the captures that come in.
    pub input: &'a str,
    /// Whether the table's load is left unchecked.
    pub unchecked: bool,
}

/// The files of a run of a network of which nothing is put, as they were written.
#[derive(Clone, Copy, Debug, PartialEq, Eq)]
pub struct NetworkInputs<'a> {
    /// The network file.
    pub network: &'a str,
    /// The folder that has a folder of captures for each switch.
    pub input: &'a str,
    /// Whether loads, jitters and what the tables agree on are left unchecked.
    pub unchecked: bool,
}

/// The files of a run of a network, as they were written.
#[derive(Clone, Copy, Debug, PartialEq, Eq)]
pub struct NetworkPaths<'a> {
    /// The network file.
    pub network: &'a str,
    /// The folder that has a folder of captures for each switch.
    pub input: &'a str,
    /// The folder that has one for each switch, into which its captures are put.
    pub output: &'a str,
    /// Whether loads, jitters and what the tables agree on are left unchecked.
    pub unchecked: bool,
}

/// A command of networks with what it goes by.
#[derive(Clone, Copy, Debug, PartialEq, Eq)]
pub enum NetworkRequest<'a> {
    /// The check of the network in this file.
    Check(&'a str, Form),
    /// The need and the limit of each rule at the ports of the network in this file.
    Size(&'a str, Form),
    /// The jitters that the rows of the network in this file need.
    Jitter(&'a str, Form),
    /// The network over captures.
    Run(NetworkPaths<'a>, Form),
    /// The delays from end to end and the buffers of such a run.
    Measure(NetworkInputs<'a>, Form),
    /// The reports, the delays, the buffers and the spells of policing of such a run.
    Survey(NetworkInputs<'a>, Form),
    /// What became of each frame and of each copy at each switch of such a run.
    Trace(NetworkPaths<'a>),
}

/// The files of recordings of a switch, as they were written.
#[derive(Clone, Copy, Debug, PartialEq, Eq)]
pub struct Compare<'a> {
    /// The file of the configuration table.
    pub table: &'a str,
    /// The folder of the captures that came in.
    pub input: &'a str,
    /// The folder of what was recorded at the output ports.
    pub output: &'a str,
    /// The folder into which each difference is put, if any.
    pub rows: Option<&'a str>,
}

/// A command with what it goes by.
#[derive(Debug, Drop)]
pub enum Request<'a> {
    /// The policing of one link.
    Alone(Alone),
    /// The check of the table in this file.
    Check(&'a str, Form),
    /// The need and the limit of each rule at the ports of the table in this file.
    Size(&'a str, Form),
    /// The switch over captures.
    Run(Paths<'a>, RunOptions),
    /// The delays and the buffers of such a run.
    Measure(Inputs<'a>, Form),
    /// The report, the delays, the buffers and the spells of policing of such a run.
    Survey(Inputs<'a>, Form),
    /// What became of each frame and of each copy of such a run.
    Trace(Paths<'a>, TraceOptions),
    /// What MESSAGES says of a code, which is this text.
    Explain(&'static str),
    /// What was recorded of a switch beside what is proved of this one.
    Compare(Compare<'a>, Recordings, Form),
    /// A command of networks.
    Network(NetworkRequest<'a>),
}

/// Why the arguments ask for no command.
#[derive(Debug, Drop)]
pub enum NoRequest {
    /// They ask for help or the version, and this is its text.
    Help(String),
    /// They are refused.
    Usage,
    /// Out of memory.
    Memory,
}
