//! The command line of networks, as `clap` reads it: the arguments after `afdx`.

ghost use Rattle.std.specs.Prelude.{◌≡◌, codes, false, IfOk};
ghost use Rattle.clap.specs.Words.{app_of};
ghost use Rattle.clap.specs.declared.builder.command.Command.TheViews.{out-Command};
ghost use Rattle.afdx_arguments.specs.Commands.{network_path_app, network_paths_app, network_run_app, network_inputs_app, bare_network, network_checks, network_runs, network_answers, network_program};

use crate::command::{csv, flag, path, with_argument, with_command, with_no_arguments};
use clap::Command;
use std::alloc::{AllocError, Global};

/// What the help of `check` says at its end.
const CHECK: &str =
    "NET names the switches, the files of their tables beside it, and the wires between
their ports. Checks the load of each table, whether the tables fit together, and
whether each jitter is enough for the whole way to its switch. For each link and
each of its ends: its way, the least and the greatest delay in ns, and the jitter
in us that it needs at each switch.

Status: 0 accepted, 2 arguments, 3 the network file or a table is refused, or
the tables do not fit together, 4 a port cannot give what its links ask for or a
jitter is not enough, 5 a file is missing, or a file, a stream or memory fails.

Example: afdx network check network.toml";

/// What the help of `size` says at its end.
const SIZE: &str =
    "For each port with links of each switch: what they need and what the port has, as
size says of one table, with the name of the switch at the end of the line.

Status: 0 done, whether each port fits or not, 2 arguments, 3 the network file
or a table is refused, 5 a file is missing, or a file, a stream or memory fails.

Example: afdx network size network.toml";

/// What the help of `jitter` says at its end.
const JITTER: &str =
    "For each link of each table: the jitter in us that it needs there, from those at
the first switches on. Whoever writes the tables takes them from here; check says
then whether they are enough.

Status: 0 done, 2 arguments, 3 the network file or a table is refused, or the
tables do not fit together, 4 the links ask for more than a line, or a jitter
past 10000 us is needed, 5 a file is missing, or a file, a stream or memory
fails.

Example: afdx network jitter network.toml";

/// What the help of `run` says at its end.
const RUN: &str = "Checks the network as check does. IN/A has the captures of the ports of switch A
to which no wire leads, port-1.pcap and so on; those of all its output ports are
put into OUT/A, which must be there. What leaves a port with a wire comes in at the
wire's end. The report of each switch is written, with its name before each line.
With --unchecked no load, no jitter and nothing that the tables agree on is checked,
and nothing is promised: frames may be policed, lost or late at any switch.

If the network file has one_line = true, a capture that did not come over one line
is refused, also with --unchecked.

Status: 0 done, 2 arguments, 3 the network file, a table or a capture is
refused, or the tables do not fit together, 4 a port cannot give what its links
ask for, a jitter is not enough, or a capture is not of one line, 5 a file is
missing, or a file, a stream or memory fails.

Example: mkdir -p out/A out/B && afdx network run network.toml in out";

/// What the help of `measure` says at its end.
const MEASURE: &str =
    "Runs the network as run does, and puts nothing. For each link and each port at which
it leads out of the network: how many of its frames left there, their least and
greatest delay in ns from the stamp at the first switch to the end on the last line,
and the bounds that check prints, - with --unchecked. Then for each port of each
switch how full its buffer was.

Status: 0 done, 2 arguments, 3 the network file, a table or a capture is
refused, or the tables do not fit together, 4 a port cannot give what its links
ask for, a jitter is not enough, or a capture is not of one line, 5 a file is
missing, or a file, a stream or memory fails.

Example: afdx network measure network.toml in";

/// What the help of `trace` says at its end.
const TRACE: &str =
    "Runs the network as run does, and puts two files for each switch A, OUT/A/arrivals.csv
and OUT/A/departures.csv, as trace does for one switch; OUT/A must be there. The
arrivals have one more column, origin: the number that the frame had among the
arrivals at its first switch, empty where this is that one.

Status: 0 done, 2 arguments, 3 the network file, a table or a capture is
refused, or the tables do not fit together, 4 a port cannot give what its links
ask for, a jitter is not enough, or a capture is not of one line, 5 a file is
missing, or a file or memory fails.

Example: mkdir -p out/A out/B && afdx network trace network.toml in out";

/// What the help of `survey` says at its end.
const SURVEY: &str =
    "Runs the network as run does, and puts nothing. Writes the report of run, the lines of
measure, and of each switch when its links were policed and when frames came.

Status: 0 done, 2 arguments, 3 the network file, a table or a capture is
refused, or the tables do not fit together, 4 a port cannot give what its links
ask for, a jitter is not enough, or a capture is not of one line, 5 a file is
missing, or a file, a stream or memory fails.

Example: afdx network survey network.toml in";

/// Makes a command that goes by a network file.
fn with_path<'a>(
    alloc: Global,
    name: &'a str,
    about: &'a str,
    more: &'a str,
) -> Result<Command<'a>, AllocError>
    ensures app { IfOk result (λ c. app_of c ≡ network_path_app name.entry.now) }
    ensures local { IfOk result (λ c. (out-Command c).has_globals ≡ false) }
{
    let network = path(alloc, "NET", "The network file");
    let command = with_no_arguments(alloc, name, about, more).arg(network);
    with_argument(command, csv(alloc))
}

/// Makes the command `network check`.
fn check<'a>(alloc: Global) -> Result<Command<'a>, AllocError>
    ensures app { IfOk result (λ c. app_of c ≡ network_path_app (codes "check")) }
    ensures local { IfOk result (λ c. (out-Command c).has_globals ≡ false) }
{
    let about = "Checks a network and prints the way of each link";
    with_path(alloc, "check", about, CHECK)
}

/// Makes the command `network size`.
fn size<'a>(alloc: Global) -> Result<Command<'a>, AllocError>
    ensures app { IfOk result (λ c. app_of c ≡ network_path_app (codes "size")) }
    ensures local { IfOk result (λ c. (out-Command c).has_globals ≡ false) }
{
    let about = "Prints what each port of each switch needs and has, whether it fits or not";
    with_path(alloc, "size", about, SIZE)
}

/// Makes the command `network jitter`.
fn jitter<'a>(alloc: Global) -> Result<Command<'a>, AllocError>
    ensures app { IfOk result (λ c. app_of c ≡ network_path_app (codes "jitter")) }
    ensures local { IfOk result (λ c. (out-Command c).has_globals ≡ false) }
{
    let about = "Prints the jitter that each link needs at each switch";
    with_path(alloc, "jitter", about, JITTER)
}

/// Makes a command over a network, captures and a folder for what is put.
fn with_paths<'a>(
    alloc: Global,
    name: &'a str,
    about: &'a str,
    more: &'a str,
    output: &'a str,
) -> Result<Command<'a>, AllocError>
    ensures app { IfOk result (λ c. app_of c ≡ network_paths_app name.entry.now) }
    ensures local { IfOk result (λ c. (out-Command c).has_globals ≡ false) }
{
    let network = path(alloc, "NET", "The network file");
    let folder = "The folder that has a folder of captures for each switch";
    let input = path(alloc, "IN", folder);
    let output = path(alloc, "OUT", output);
    let whatever = "Runs a network that check refuses, too";
    let unchecked = flag(alloc, "unchecked", whatever);
    let command = with_no_arguments(alloc, name, about, more).arg(network);
    with_argument(
        with_argument(with_argument(command, input), output),
        unchecked,
    )
}

/// Makes the command `network run`.
fn run<'a>(alloc: Global) -> Result<Command<'a>, AllocError>
    ensures app { IfOk result (λ c. app_of c ≡ network_run_app) }
    ensures local { IfOk result (λ c. (out-Command c).has_globals ≡ false) }
{
    let about = "Runs the switches of a network over one capture for each port without a wire";
    let outputs = "The folder that has a folder for each switch's captures";
    let command = with_paths(alloc, "run", about, RUN, outputs);
    with_argument(command, csv(alloc))
}

/// Makes the command `network trace`.
fn trace<'a>(alloc: Global) -> Result<Command<'a>, AllocError>
    ensures app { IfOk result (λ c. app_of c ≡ network_paths_app (codes "trace")) }
    ensures local { IfOk result (λ c. (out-Command c).has_globals ≡ false) }
{
    let about = "Writes what became of each frame and of each copy at each switch";
    let outputs = "The folder that has a folder for each switch's arrivals.csv and departures.csv";
    with_paths(alloc, "trace", about, TRACE, outputs)
}

/// Makes a command over a network and captures, of which nothing is put.
fn with_inputs<'a>(
    alloc: Global,
    name: &'a str,
    about: &'a str,
    more: &'a str,
) -> Result<Command<'a>, AllocError>
    ensures app { IfOk result (λ c. app_of c ≡ network_inputs_app name.entry.now) }
    ensures local { IfOk result (λ c. (out-Command c).has_globals ≡ false) }
{
    let network = path(alloc, "NET", "The network file");
    let folder = "The folder that has a folder of captures for each switch";
    let input = path(alloc, "IN", folder);
    let whatever = "Runs a network that check refuses, too";
    let unchecked = flag(alloc, "unchecked", whatever);
    let command = with_no_arguments(alloc, name, about, more).arg(network);
    let command = with_argument(with_argument(command, input), unchecked);
    with_argument(command, csv(alloc))
}

/// Makes the command `network measure`.
fn measure<'a>(alloc: Global) -> Result<Command<'a>, AllocError>
    ensures app { IfOk result (λ c. app_of c ≡ network_inputs_app (codes "measure")) }
    ensures local { IfOk result (λ c. (out-Command c).has_globals ≡ false) }
{
    let about = "Measures the delays of links from end to end, and buffers";
    with_inputs(alloc, "measure", about, MEASURE)
}

/// Makes the command `network survey`.
fn survey<'a>(alloc: Global) -> Result<Command<'a>, AllocError>
    ensures app { IfOk result (λ c. app_of c ≡ network_inputs_app (codes "survey")) }
    ensures local { IfOk result (λ c. (out-Command c).has_globals ≡ false) }
{
    let about = "Says in one pass what run and measure say, and when links were policed";
    with_inputs(alloc, "survey", about, SURVEY)
}

/// Makes the program without its commands.
fn bare_network<'a>(alloc: Global) -> Result<Command<'a>, AllocError>
    ensures { IfOk result (λ c. app_of c ≡ bare_network) }
{
    Command::new(alloc, "network")
        .about("Checks and runs a network of switches")
        .subcommand_required(true)
        .bin_name("afdx network")
}

/// Makes the program with the commands `check` and `size`.
fn with_checks<'a>(alloc: Global) -> Result<Command<'a>, AllocError>
    ensures { IfOk result (λ c. app_of c ≡ network_checks) }
{
    let program = with_command(bare_network(alloc)?, check(alloc))?;
    with_command(program, size(alloc))
}

/// Makes the same program with `jitter` and `run` too.
fn with_runs<'a>(alloc: Global) -> Result<Command<'a>, AllocError>
    ensures { IfOk result (λ c. app_of c ≡ network_runs) }
{
    let program = with_command(with_checks(alloc)?, jitter(alloc))?;
    with_command(program, run(alloc))
}

/// Makes the same program with `measure` and `survey` too.
fn with_answers<'a>(alloc: Global) -> Result<Command<'a>, AllocError>
    ensures { IfOk result (λ c. app_of c ≡ network_answers) }
{
    let program = with_command(with_runs(alloc)?, measure(alloc))?;
    with_command(program, survey(alloc))
}

/// Makes the program that reads the arguments after `afdx` if the first of them is `network`.
pub(crate) fn network_program<'a>(alloc: Global) -> Result<Command<'a>, AllocError>
    ensures { IfOk result (λ c. app_of c ≡ network_program) }
{
    with_command(with_answers(alloc)?, trace(alloc))
}
