//! The command `compare`, as `clap` reads it.

ghost use Rattle.std.specs.Prelude.{◌≡◌, false, IfOk};
ghost use Rattle.clap.specs.Words.{App, app_of, rule_of};
ghost use Rattle.clap.specs.declared.builder.command.Command.TheViews.{out-Command};
ghost use Rattle.afdx_arguments.specs.Commands.{optional_rule, with_stamps, with_span, compare_app};

use crate::command::{csv, flag, text_option, with_argument, with_files};
use clap::builder::ValueParser;
use clap::{Arg, Command};
use std::alloc::{AllocError, Global};

/// What the help of `compare` says at its end.
const COMPARE: &str =
    "Says whether recordings of a switch keep what is proved of this one: IN has what
came in at each port, OUT what was recorded at each output. Runs no queue. First
the span of the recordings, in ns; for each link and each of its output ports how
many frames its account passed and how many records left, and of these how many
are missing, extra, early and late, how many may be of frames before the span or
leave after it, and for how many frames the account may have decided either way;
then their least and greatest delay in ns beside the port's bound. For each port:
its records, and those of no link that leads there. Last conforms or differs.

--rows FOLDER puts FOLDER/differences.csv, which has a line for each difference.

Status: 0 conforms, 1 differs, 2 arguments, 3 the table or a capture is refused,
4 a port cannot give what its links ask for, 5 a file is missing, or a file, a
stream or memory fails.

Example: afdx compare table.toml in recorded --tolerance 200";

/// Makes an option with a whole number of 64 bits.
fn optional_number<'a>(alloc: Global, name: &'a str, value: &'a str, about: &'a str) -> Arg<'a>
    ensures rule { rule_of result ≡ optional_rule name.entry.now }
    ensures local { result.global ≡ false }
{
    text_option(alloc, name, value, about).value_parser(ValueParser::unsigned(0, u64::MAX))
}

/// Adds to a command the options that say what is known of the switch and of the stamps.
fn with_stamps<'a>(
    alloc: Global,
    command: Result<Command<'a>, AllocError>,
) -> Result<Command<'a>, AllocError>
    ensures app { (app : App) → IfOk command.entry (λ c. app_of c ≡ app) → IfOk result (λ c. app_of c ≡ with_stamps app) }
    ensures local { IfOk command.entry (λ c. (out-Command c).has_globals ≡ false)
        → IfOk result (λ c. (out-Command c).has_globals ≡ false) }
{
    let least = "The least latency of the switch in us, 0 to 100 [0]";
    let least = optional_number(alloc, "least-latency", "US", least);
    let tolerance = "By how many ns stamps may be off, to 1000000000 [0]";
    let tolerance = optional_number(alloc, "tolerance", "NS", tolerance);
    let stamps = "What stamps at outputs are: end of the last bit, or line free [end]";
    let stamps = text_option(alloc, "stamps", "end|free", stamps);
    let offset = "Adds NS to the stamps at output PORT; more with commas between";
    let offset = text_option(alloc, "offset", "PORT=NS", offset);
    let command = with_argument(with_argument(command, least), tolerance);
    with_argument(with_argument(command, stamps), offset)
}

/// Adds to a command the options that say when the recordings begin and end.
fn with_span<'a>(
    alloc: Global,
    command: Result<Command<'a>, AllocError>,
) -> Result<Command<'a>, AllocError>
    ensures app { (app : App) → IfOk command.entry (λ c. app_of c ≡ app) → IfOk result (λ c. app_of c ≡ with_span app) }
    ensures local { IfOk command.entry (λ c. (out-Command c).has_globals ≡ false)
        → IfOk result (λ c. (out-Command c).has_globals ≡ false) }
{
    let rest = flag(
        alloc,
        "rest",
        "The recordings begin with the switch at rest",
    );
    let from = optional_number(
        alloc,
        "from",
        "STAMP",
        "Where they begin in ns [the first stamp]",
    );
    let until = optional_number(
        alloc,
        "until",
        "STAMP",
        "Where they end in ns [the last stamp]",
    );
    with_argument(with_argument(with_argument(command, rest), from), until)
}

/// Makes the command `compare`.
pub(crate) fn compare<'a>(alloc: Global) -> Result<Command<'a>, AllocError>
    ensures app { IfOk result (λ c. app_of c ≡ compare_app) }
    ensures local { IfOk result (λ c. (out-Command c).has_globals ≡ false) }
{
    let about = "Compares recordings of a switch with what is proved of this one";
    let output = "The folder of what was recorded at the outputs";
    let command = with_files(alloc, "compare", about, COMPARE, output);
    let command = with_span(alloc, with_stamps(alloc, command));
    let ports = "The outputs that were recorded, with commas between [all]";
    let ports = text_option(alloc, "ports", "PORT", ports);
    let rows = "The folder into which differences.csv is put";
    let rows = text_option(alloc, "rows", "FOLDER", rows);
    let command = with_argument(with_argument(command, ports), rows);
    with_argument(command, csv(alloc))
}
