//! The whole program, over any reader, writers and folder.

ghost use Rattle.std.specs.Prelude.{◌≡◌, ◌≢◌, ◌++◌, map, string_bytes, MatchResult};
ghost use Rattle.std.specs.Io.KnownBytes.{Keeps};
ghost use Rattle.afdx_arguments.specs.Explaining.{is_explained, plain_of};
ghost use Rattle.afdx_messages.specs.Codes.{more_of};
ghost use Rattle.afdx_messages.specs.declared.failure.Failure.{Failure as Failing};
ghost use Rattle.afdx_messages.specs.Reporting.{line_of, status_of, IsTold};
ghost use Rattle.afdx_serve.specs.Serving.{world, Answers, FailsToAnswer, Performs, FailsToPerform, Serves, Fails};

use crate::check::check;
use crate::compare::compare;
use crate::explain::explain;
use crate::measure::measure;
use crate::network_serving::perform_network;
use crate::run::run;
use crate::size::size;
use crate::survey::survey;
use crate::trace::trace;
use afdx_alone::{Alone, read_alone};
use afdx_arguments::{NoRequest, Request, is_explained, parse, plain_of};
use afdx_folder::{Folder, write_bytes};
use afdx_messages::{Ending, Failure, report};
use std::alloc::Global;
use std::io::{Read, Write};

/// Reads the input to its end and writes what is answered to it.
///
/// Its faults are found and all memory is taken before the first write.
fn answer<R: Read, O: Write>(
    alloc: Global,
    link: &Alone,
    input: &mut R,
    out: &mut O,
) -> Result<(), Failure>
    ensures { MatchResult result
        (λ _. Answers link.now (R.remaining input.old) (O.contents out.old) (O.contents out.new))
        (λ f. FailsToAnswer f link.now (R.remaining input.old) (O.contents out.old) (O.contents out.new)) }
{
    let text = read_alone(alloc, link, input)?;
    write_bytes(out, &text)?;
    Ok(())
}

/// Does what is asked for.
fn perform<R: Read, O: Write, F: Folder>(
    alloc: Global,
    request: &Request<'_>,
    input: &mut R,
    out: &mut O,
    folder: &mut F,
) -> Result<(), Failure>
    ensures { MatchResult result
        (λ _. Performs request.now (R.remaining input.old)
        (world (O.contents out.old) (F.files folder.old) (F.failed folder.old)) (world (O.contents out.new) (F.files folder.new) (F.failed folder.new)))
        (λ f. FailsToPerform f request.now (R.remaining input.old)
        (world (O.contents out.old) (F.files folder.old) (F.failed folder.old)) (world (O.contents out.new) (F.files folder.new) (F.failed folder.new))) }
{
    match request {
        Request::Alone(link) => answer(alloc, link, input, out),
        Request::Check(path, form) => check(alloc, path, *form, out, folder),
        Request::Size(path, form) => size(alloc, path, *form, out, folder),
        Request::Run(paths, options) => run(alloc, paths, options, out, folder),
        Request::Measure(inputs, form) => measure(alloc, inputs, *form, out, folder),
        Request::Survey(inputs, form) => survey(alloc, inputs, *form, out, folder),
        Request::Trace(paths, options) => trace(alloc, paths, options, folder),
        Request::Compare(files, recordings, form) => {
            compare(alloc, files, recordings, *form, out, folder)
        },
        Request::Explain(entry) => explain(entry, out),
        Request::Network(request) => perform_network(alloc, request, out, folder),
    }
}

/// Serves what the arguments ask for, help included.
fn serve_arguments<R: Read, O: Write, F: Folder>(
    alloc: Global,
    version: &str,
    arguments: &[String],
    input: &mut R,
    out: &mut O,
    folder: &mut F,
) -> Result<(), Failure>
    ensures { MatchResult result
        (λ _. Serves (map string_bytes arguments.now) (R.remaining input.old)
        (world (O.contents out.old) (F.files folder.old) (F.failed folder.old)) (world (O.contents out.new) (F.files folder.new) (F.failed folder.new)))
        (λ f. Fails f (map string_bytes arguments.now) (R.remaining input.old)
        (world (O.contents out.old) (F.files folder.old) (F.failed folder.old)) (world (O.contents out.new) (F.files folder.new) (F.failed folder.new))) }
{
    match parse(alloc, version, arguments) {
        Ok(request) => perform(alloc, &request, input, out, folder),
        Err(NoRequest::Help(text)) => {
            write_bytes(out, text.as_bytes())?;
            Ok(())
        }
        Err(NoRequest::Usage) => Err(Failure::Usage),
        Err(NoRequest::Memory) => Err(Failure::Memory),
    }
}

/// Serves what the arguments ask for, of which the first is the program's name, and returns how it ended. The status is 0 done,
/// 1 done with one of what a run is to fail on or with what speaks against a switch that was recorded, 2 refused arguments, also if they
/// do not fit the table, 3 a refused table, network or capture, 4 a refused load or jitter or a record that came too soon for a line,
/// 5 memory or a device.
///
/// `afdx alone` reads `input` to its end and writes its answer on `out`. `afdx check TABLE` and `afdx size TABLE` get TABLE
/// from `folder` and write their lines on `out`. `afdx run TABLE IN OUT` gets TABLE, checks its load unless there is
/// `--unchecked`, gets IN/port-1.pcap and so on, puts OUT/port-1.pcap and so on and writes the report on `out`, with its
/// verdict as the last line if there is `--verdict`. `afdx measure TABLE IN` does so too, but puts nothing and writes what
/// delays and buffers were. `afdx survey TABLE IN` writes the report and these, and when links were policed. `afdx trace TABLE
/// IN OUT` puts OUT/arrivals.csv and OUT/departures.csv in place of the captures, with the lines of the links of `--link` alone
/// if there is one, and writes nothing. `afdx compare TABLE IN OUT` gets TABLE, which its options have to fit, checks its load as of a
/// switch whose latency varies, gets IN/port-1.pcap and so on, and OUT/port-1.pcap and so on of the ports that were recorded, puts
/// FOLDER/differences.csv if there is `--rows FOLDER`, and writes what it found out.
///
/// `afdx network check NET`, `afdx network size NET` and `afdx network jitter NET` get NET and the tables that it names and write their
/// lines. `afdx network run NET IN OUT` gets IN/A/port-1.pcap and so on for each switch A, puts OUT/A/port-1.pcap and so on and writes
/// the reports. `afdx network measure NET IN` does so too, but puts nothing and writes what delays from end to end and buffers were.
/// `afdx network survey NET IN` writes the reports and these, and when links were policed. `afdx network trace NET IN OUT` puts
/// OUT/A/arrivals.csv and OUT/A/departures.csv in place of the captures, and writes nothing.
///
/// `afdx explain CODE` writes on `out` what MESSAGES says of CODE. `--help` and `--version` write some text on `out`: that of `clap`, the
/// second that of `version` after the program's name, as tests show. On a status above 1 the line of the failure, or its lines, go to
/// `err`, and after them what MESSAGES says of their code if `--explain` is the first argument after the program's name: whole, or it is
/// said that they were not taken, and a prefix of them is there; a fault in writing them changes nothing else. All other arguments mean
/// what they mean without `--explain`. What is met before the answer is written leaves `out` as it was; if writing fails, a prefix of the
/// answer was written.
///
/// If a table, a network file or a capture was not got or opened, or a file was not put, the folder has counted a failure of that name
/// (if its count was not at its greatest value); a capture that could not be read is counted for itself. No contract knows why a
/// reader or a writer fails, or whether memory is left: that 5 comes of a capture that was opened, of `input`, of `out` and of memory
/// only then, and that it is said only of an `err` that fails that it has not taken its lines, is shown by tests.
///
/// O(arguments, input and files) beside the switch's own work, with at most 16,777,216 reads of `input`.
pub fn serve<R: Read, O: Write, E: Write, F: Folder>(
    alloc: Global,
    version: &str,
    arguments: &[String],
    input: &mut R,
    out: &mut O,
    err: &mut E,
    folder: &mut F,
) -> Ending
    ensures served { result.status ≡ 0
        → Serves (plain_of (map string_bytes arguments.now)) (R.remaining input.old)
        (world (O.contents out.old) (F.files folder.old) (F.failed folder.old)) (world (O.contents out.new) (F.files folder.new) (F.failed folder.new))
        × Keeps (E.contents err.old) (E.contents err.new) }
    ensures failed { result.status ≢ 0 → (f : Failing) × (result.status ≡ status_of f)
        × Fails f (plain_of (map string_bytes arguments.now)) (R.remaining input.old)
        (world (O.contents out.old) (F.files folder.old) (F.failed folder.old)) (world (O.contents out.new) (F.files folder.new) (F.failed folder.new))
        × IsTold result.is_told (E.contents err.old) (E.contents err.new) (line_of f ++ more_of f (is_explained (map string_bytes arguments.now))) }
{
    match serve_arguments(alloc, version, plain_of(arguments), input, out, folder) {
        Ok(()) => Ending {
            status: 0,
            is_told: true,
        },
        Err(failure) => report(alloc, &failure, is_explained(arguments), err),
    }
}
