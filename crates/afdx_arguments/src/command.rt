//! The command line, as `clap` reads it.

ghost use Rattle.std.specs.Prelude.{◌≡◌, codes, false, IfOk};
ghost use Rattle.clap.specs.Words.{App, app_of, new_app, rule_of, with_rule, with_subcommand};
ghost use Rattle.clap.specs.declared.builder.command.Command.TheViews.{out-Command};
ghost use Rattle.afdx_arguments.specs.Commands.{number_rule, path_rule, flag_rule, csv_rule, text_rule, links_rule};
ghost use Rattle.afdx_arguments.specs.Commands.{alone_app, check_app, size_app, files_app, paths_app, run_app, inputs_app, trace_app};
ghost use Rattle.afdx_arguments.specs.Commands.{network_app, bare_program, program};

use crate::compare_command::compare;
use crate::explaining::explain;
use clap::builder::ValueParser;
use clap::{Arg, ArgAction, Command};
use std::alloc::{AllocError, Global};

/// Makes a required option with a whole number of 64 bits. `Alone::of_numbers` alone tests its limits.
fn number_option<'a>(alloc: Global, name: &'a str, value: &'a str, about: &'a str) -> Arg<'a>
    ensures rule { rule_of result ≡ number_rule name.entry.now }
    ensures local { result.global ≡ false }
{
    Arg::new(alloc, name)
        .long(name)
        .value_name(value)
        .help(about)
        .required(true)
        .value_parser(ValueParser::unsigned(0, u64::MAX))
}

/// Makes a required argument in its place.
pub(crate) fn path<'a>(alloc: Global, name: &'a str, about: &'a str) -> Arg<'a>
    ensures rule { rule_of result ≡ path_rule name.entry.now }
    ensures local { result.global ≡ false }
{
    Arg::new(alloc, name).help(about).required(true)
}

/// Makes a flag.
pub(crate) fn flag<'a>(alloc: Global, name: &'a str, about: &'a str) -> Arg<'a>
    ensures rule { rule_of result ≡ flag_rule name.entry.now }
    ensures local { result.global ≡ false }
{
    Arg::new(alloc, name)
        .long(name)
        .help(about)
        .action(ArgAction::SetTrue)
}

/// Makes the flag for comma-separated values.
pub(crate) fn csv<'a>(alloc: Global) -> Arg<'a>
    ensures rule { rule_of result ≡ csv_rule }
    ensures local { result.global ≡ false }
{
    let about = "Prints comma-separated values with a heading";
    flag(alloc, "csv", about)
}

/// Makes an option with a text.
pub(crate) fn text_option<'a>(
    alloc: Global,
    name: &'a str,
    value: &'a str,
    about: &'a str,
) -> Arg<'a>
    ensures rule { rule_of result ≡ text_rule name.entry.now }
    ensures local { result.global ≡ false }
{
    Arg::new(alloc, name)
        .long(name)
        .value_name(value)
        .help(about)
}

/// Makes an option with a link's number, which may be given again with another one.
fn links_option<'a>(alloc: Global, name: &'a str, value: &'a str, about: &'a str) -> Arg<'a>
    ensures rule { rule_of result ≡ links_rule name.entry.now }
    ensures local { result.global ≡ false }
{
    Arg::new(alloc, name)
        .long(name)
        .value_name(value)
        .help(about)
        .action(ArgAction::Append)
        .value_parser(ValueParser::unsigned(0, 65535))
}

/// What the help of `alone` says at its end.
const ALONE: &str = "Reads a capture on standard input and writes the capture of the frames that the
link's account passes on standard output.

Status: 0 done, 2 arguments, 3 the capture is refused, 5 a stream or memory
fails.

Example: afdx alone --id 10 --bag 1 --jitter 0 --size 1000 < in.pcap > out.pcap";

/// What the help of `check` says at its end.
const CHECK: &str = "Status: 0 accepted, 2 arguments, 3 the table is refused, 4 a port cannot give
what its links ask for, 5 a file is missing, or a file, a stream or memory
fails.

Example: afdx check table.toml";

/// What the help of `size` says at its end.
const SIZE: &str = "For each port with links: what they need and what the port has, by rule (the
line's rate in parts, the buffer in bytes, the delays in ns), and the rules that
it breaks.

Status: 0 done, whether each port fits or not, 2 arguments, 3 the table is
refused, 5 a file is missing, or a file, a stream or memory fails.

Example: afdx size table.toml";

/// What the help of `run` says at its end.
const RUN: &str = "All files are read before the first capture gets its name. OUT must be there. A
capture is written to a new file beside its name, which is then moved onto the
name: each name has what stood there or the whole new capture, also after a
failure or a kill. After a failed put the captures of the ports before it are
new, after a failed write all are. A file that was read is not replaced. Captures
of ports that the table lacks are not looked at. Names are printed as they were
given.

With --verdict the report has one more line, its last: how many links had policed
frames, how many these were, how many frames the filter dropped, and how many
copies were lost, refused by a full buffer or discarded for age. WORDS are policed,
filtered, lost or several of these with commas between them, as policed,lost: the
run ends with status 1 if there was one. All is put and written as without it.

Status: 0 done, 1 done with one of WORDS, 2 arguments, 3 the table or a capture
is refused, 4 a port cannot give what its links ask for, 5 a file is missing, or
a file, a stream or memory fails.

Example: mkdir out && afdx run table.toml in out";

/// What the help of `measure` says at its end.
const MEASURE: &str = "Runs as run does, and writes no capture. For each link and each of its output
ports: how many frames were sent, and their least and greatest delay in ns, from
the stamp to the end on the line, beside the port's bound. For each port: the most
bytes that its buffer held, and the stamp in ns of the first frame that filled it
so.

Status: 0 done, 2 arguments, 3 the table or a capture is refused, 4 a port
cannot give what its links ask for, 5 a file is missing, or a file, a stream or
memory fails.

Example: afdx measure table.toml in";

/// What the help of `survey` says at its end.
const SURVEY: &str =
    "Runs as run does, once, and writes no capture. Prints the report of run and the
lines of measure; for each spell in which a link was policed, how many frames were
policed, the stamps in ns of the first and of the last, and by how many ns they
came too early, the least and the greatest; then the stamps of the first and of
the last frame that came, and how many came.

Status: 0 done, 2 arguments, 3 the table or a capture is refused, 4 a port
cannot give what its links ask for, 5 a file is missing, or a file, a stream or
memory fails.

Example: afdx survey table.toml in";

/// What the help of `trace` says at its end.
const TRACE: &str =
    "Runs as run does, and puts two files of comma-separated values with a heading into
OUT, which must be there, in place of the captures: arrivals.csv has a line for
each frame that came in, with its fate, how many ns too early a policed one came,
and the ports whose buffers were full; departures.csv has one for each copy that a
port sent or discarded. A file is written beside its name and then moved onto it.

With --link both files have the lines of the links that are named alone, those of
the whole files. A link that the table lacks has none.

Status: 0 done, 2 arguments, 3 the table or a capture is refused, 4 a port
cannot give what its links ask for, 5 a file is missing, or a file or memory
fails.

Example: mkdir rows && afdx trace table.toml in rows";

/// What the help of `network` says at its end. Its own commands are read by a program of their own.
const NETWORK: &str = "Its commands are check, size, jitter, run, measure, survey and trace: see
afdx network --help, and of each of them afdx network COMMAND --help.";

/// Makes a command without its arguments.
pub(crate) fn with_no_arguments<'a>(
    alloc: Global,
    name: &'a str,
    about: &'a str,
    more: &'a str,
) -> Command<'a>
    ensures app { app_of result ≡ new_app name.entry.now }
    ensures local { (out-Command result).has_globals ≡ false }
{
    Command::new(alloc, name).about(about).after_help(more)
}

/// Adds an argument to a command, as its last.
pub(crate) fn with_argument<'a>(
    command: Result<Command<'a>, AllocError>,
    argument: Arg<'a>,
) -> Result<Command<'a>, AllocError>
    requires { argument.global ≡ false }
    ensures app { (app : App) → IfOk command.entry (λ c. app_of c ≡ app)
        → IfOk result (λ c. app_of c ≡ with_rule app (rule_of argument.entry)) }
    ensures local { IfOk command.entry (λ c. (out-Command c).has_globals ≡ false)
        → IfOk result (λ c. (out-Command c).has_globals ≡ false) }
{
    command?.arg(argument)
}

/// Adds a command to a program, as its last.
pub(crate) fn with_command<'a>(
    program: Command<'a>,
    command: Result<Command<'a>, AllocError>,
) -> Result<Command<'a>, AllocError>
    requires { IfOk command (λ c. (out-Command c).has_globals ≡ false) }
    ensures { (app : App) → IfOk command.entry (λ c. app_of c ≡ app)
        → IfOk result (λ c. app_of c ≡ with_subcommand (app_of program.entry) app.top) }
{
    program.subcommand(command?)
}

/// Makes the command `alone`.
fn alone<'a>(alloc: Global) -> Result<Command<'a>, AllocError>
    ensures app { IfOk result (λ c. app_of c ≡ alone_app) }
    ensures local { IfOk result (λ c. (out-Command c).has_globals ≡ false) }
{
    let about = "Polices one virtual link of the capture on standard input";
    let id = number_option(alloc, "id", "N", "The link's number, 0 to 65535");
    let gaps = "Its BAG in ms: 1, 2, 4, 8, 16, 32, 64 or 128";
    let bag = number_option(alloc, "bag", "MS", gaps);
    let jitter = number_option(
        alloc,
        "jitter",
        "US",
        "Its greatest jitter in us, 0 to 10000",
    );
    let sizes = "Its greatest frame size in bytes, 64 to 1518";
    let size = number_option(alloc, "size", "N", sizes);
    let command = with_no_arguments(alloc, "alone", about, ALONE).arg(id);
    with_argument(with_argument(with_argument(command, bag), jitter), size)
}

/// Makes the command `check`.
fn check<'a>(alloc: Global) -> Result<Command<'a>, AllocError>
    ensures app { IfOk result (λ c. app_of c ≡ check_app) }
    ensures local { IfOk result (λ c. (out-Command c).has_globals ≡ false) }
{
    let about = "Checks the load of a configuration table";
    let table = path(alloc, "TABLE", "The configuration table");
    let command = with_no_arguments(alloc, "check", about, CHECK).arg(table);
    with_argument(command, csv(alloc))
}

/// Makes the command `size`.
fn size<'a>(alloc: Global) -> Result<Command<'a>, AllocError>
    ensures app { IfOk result (λ c. app_of c ≡ size_app) }
    ensures local { IfOk result (λ c. (out-Command c).has_globals ≡ false) }
{
    let about = "Prints what each port needs and has, whether it fits or not";
    let table = path(alloc, "TABLE", "The configuration table");
    let command = with_no_arguments(alloc, "size", about, SIZE).arg(table);
    with_argument(command, csv(alloc))
}

/// Makes a command that goes by a table and by files that come in, with what its help says of it, at its end and of OUT.
pub(crate) fn with_files<'a>(
    alloc: Global,
    name: &'a str,
    about: &'a str,
    more: &'a str,
    output: &'a str,
) -> Result<Command<'a>, AllocError>
    ensures app { IfOk result (λ c. app_of c ≡ files_app name.entry.now) }
    ensures local { IfOk result (λ c. (out-Command c).has_globals ≡ false) }
{
    let table = path(alloc, "TABLE", "The configuration table");
    let input = path(alloc, "IN", "The folder of port-1.pcap and so on");
    let output = path(alloc, "OUT", output);
    let command = with_no_arguments(alloc, name, about, more).arg(table);
    with_argument(with_argument(command, input), output)
}

/// Makes a command that goes by the files of a run, with what its help says of it, at its end and of OUT.
fn with_paths<'a>(
    alloc: Global,
    name: &'a str,
    about: &'a str,
    more: &'a str,
    output: &'a str,
) -> Result<Command<'a>, AllocError>
    ensures app { IfOk result (λ c. app_of c ≡ paths_app name.entry.now) }
    ensures local { IfOk result (λ c. (out-Command c).has_globals ≡ false) }
{
    let unchecked = flag(alloc, "unchecked", "Runs a table whatever its load");
    with_argument(with_files(alloc, name, about, more, output), unchecked)
}

/// Makes the command `run`.
fn run<'a>(alloc: Global) -> Result<Command<'a>, AllocError>
    ensures app { IfOk result (λ c. app_of c ≡ run_app) }
    ensures local { IfOk result (λ c. (out-Command c).has_globals ≡ false) }
{
    let about = "Runs the switch over one capture for each port";
    let output = "The folder for the captures of the output ports";
    let sums = "Adds a last line to the report that sums it up";
    let verdict = flag(alloc, "verdict", sums);
    let fails = "Ends with status 1 if there was one of WORDS";
    let fail_on = text_option(alloc, "fail-on", "WORDS", fails);
    let command = with_paths(alloc, "run", about, RUN, output);
    let command = with_argument(with_argument(command, verdict), fail_on);
    with_argument(command, csv(alloc))
}

/// Makes a command of a table and of captures, of which nothing is put.
fn with_inputs<'a>(
    alloc: Global,
    name: &'a str,
    about: &'a str,
    more: &'a str,
) -> Result<Command<'a>, AllocError>
    ensures app { IfOk result (λ c. app_of c ≡ inputs_app name.entry.now) }
    ensures local { IfOk result (λ c. (out-Command c).has_globals ≡ false) }
{
    let table = path(alloc, "TABLE", "The configuration table");
    let input = path(alloc, "IN", "The folder of port-1.pcap and so on");
    let what = "Runs a table whatever its load, and prints no bounds";
    let unchecked = flag(alloc, "unchecked", what);
    let command = with_no_arguments(alloc, name, about, more).arg(table);
    let command = with_argument(with_argument(command, input), unchecked);
    with_argument(command, csv(alloc))
}

/// Makes the command `measure`.
fn measure<'a>(alloc: Global) -> Result<Command<'a>, AllocError>
    ensures app { IfOk result (λ c. app_of c ≡ inputs_app (codes "measure")) }
    ensures local { IfOk result (λ c. (out-Command c).has_globals ≡ false) }
{
    let about = "Prints the delays of each link and how full each buffer was";
    with_inputs(alloc, "measure", about, MEASURE)
}

/// Makes the command `survey`.
fn survey<'a>(alloc: Global) -> Result<Command<'a>, AllocError>
    ensures app { IfOk result (λ c. app_of c ≡ inputs_app (codes "survey")) }
    ensures local { IfOk result (λ c. (out-Command c).has_globals ≡ false) }
{
    let about = "Prints in one pass the report, the delays and when links were policed";
    with_inputs(alloc, "survey", about, SURVEY)
}

/// Makes the command `trace`.
fn trace<'a>(alloc: Global) -> Result<Command<'a>, AllocError>
    ensures app { IfOk result (λ c. app_of c ≡ trace_app) }
    ensures local { IfOk result (λ c. (out-Command c).has_globals ≡ false) }
{
    let about = "Writes what became of each frame and of each copy";
    let output = "The folder for arrivals.csv and departures.csv";
    let lines = "Writes the lines of link N alone; may be repeated";
    let links = links_option(alloc, "link", "N", lines);
    let stamps = "Counts instants from the stamp of the first frame";
    let relative = flag(alloc, "relative", stamps);
    let command = with_paths(alloc, "trace", about, TRACE, output);
    with_argument(with_argument(command, links), relative)
}

/// Makes the command `network`, by which the program's help tells of the commands of networks.
fn network<'a>(alloc: Global) -> Command<'a>
    ensures app { app_of result ≡ network_app }
    ensures local { (out-Command result).has_globals ≡ false }
{
    let about = "Checks and runs a network of switches";
    with_no_arguments(alloc, "network", about, NETWORK)
}

/// Makes the program without its commands.
fn bare_program<'a>(alloc: Global, version: &'a str) -> Result<Command<'a>, AllocError>
    ensures { IfOk result (λ c. app_of c ≡ bare_program) }
{
    let about = "Explains a refusal on further lines; goes before COMMAND";
    let explained = flag(alloc, "explain", about);
    let command = Command::new(alloc, "afdx")
        .about("An AFDX switch over captured traffic")
        .version(version)
        .subcommand_required(true)
        .bin_name("afdx");
    with_argument(command, explained)
}

/// Makes the program with the commands of one link and of a table's load.
fn with_checks<'a>(alloc: Global, version: &'a str) -> Result<Command<'a>, AllocError>
    ensures { IfOk result (λ c. app_of c ≡ with_subcommand (with_subcommand bare_program alone_app.top) check_app.top) }
{
    let program = with_command(bare_program(alloc, version)?, alone(alloc))?;
    with_command(program, check(alloc))
}

/// Adds the commands `size` and `run` to a program.
fn with_run<'a>(alloc: Global, program: Command<'a>) -> Result<Command<'a>, AllocError>
    ensures { IfOk result (λ c. app_of c ≡ with_subcommand (with_subcommand (app_of program.entry) size_app.top) run_app.top) }
{
    let program = with_command(program, size(alloc))?;
    with_command(program, run(alloc))
}

/// Adds the commands `measure`, `survey` and `trace` to a program.
fn with_rows<'a>(alloc: Global, program: Command<'a>) -> Result<Command<'a>, AllocError>
    ensures { IfOk result (λ c. app_of c
        ≡ with_subcommand (with_subcommand (with_subcommand (app_of program.entry) (inputs_app (codes "measure")).top) (inputs_app (codes "survey")).top) trace_app.top) }
{
    let program = with_command(program, measure(alloc))?;
    let program = with_command(program, survey(alloc))?;
    with_command(program, trace(alloc))
}

/// Makes the whole program, which says this of its version.
pub(crate) fn program<'a>(alloc: Global, version: &'a str) -> Result<Command<'a>, AllocError>
    ensures { IfOk result (λ c. app_of c ≡ program) }
{
    let checks = with_checks(alloc, version)?;
    let runs = with_run(alloc, checks)?;
    let rows = with_rows(alloc, runs)?;
    let all = with_command(rows, explain(alloc))?;
    let compares = with_command(all, compare(alloc))?;
    compares.subcommand(network(alloc))
}
