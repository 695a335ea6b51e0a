//! From the arguments to what they ask for.

ghost use Rattle.std.specs.Prelude.{◌≡◌, ℕ, codes, true, false, map, option_map, unwrap_or, string_bytes, List, [], IfOk, MatchOption, MatchResult, Some};
ghost use Rattle.std.specs.Str.{bytes_eq};
ghost use Rattle.clap.specs.Words.{all_of, app_of, fault_of, first_of, found_of, is_simple, is_simple_and_free, kind_of, rows_of, subcommand_rows_of};
ghost use Rattle.afdx_alone.specs.declared.link.Alone.{Alone as Link};
ghost use Rattle.afdx_arguments.specs.declared.request.Paths.{Paths as Files};
ghost use Rattle.afdx_arguments.specs.declared.request.Inputs.{Inputs as Given};
ghost use Rattle.afdx_arguments.specs.declared.request.RunOptions.{RunOptions as Options};
ghost use Rattle.afdx_arguments.specs.declared.request.TraceOptions.{TraceOptions as Shown};
ghost use Rattle.afdx_arguments.specs.declared.request.Request.{Request as Asked};
ghost use Rattle.afdx_arguments.specs.Requests.{HasNumber, is_set, HasLink, HasPaths, HasInputs, HasOptions, form_in, AreLinks, HasTraceOptions, AsksFor, Explains, Reads};
ghost use Rattle.afdx_arguments.specs.Requests.{HasMatches, HasNoMatches, is_network};

use crate::command::program;
use crate::compare_arguments::{compare_of, recordings_of};
use crate::explaining::entry_asked;
use crate::fail_on::FailOn;
use crate::network_arguments::network_asked;
use crate::network_command::network_program;
use crate::request::{Inputs, NoRequest, Paths, Request, RunOptions, TraceOptions};
use afdx_alone::Alone;
use afdx_csv::Form;
use clap::error::ErrorKind;
use clap::{ArgMatches, Command, Error};
use std::alloc::{AllocError, Global};

/// Returns the number of an option, if it has one.
pub(crate) fn number(matches: &ArgMatches<'_>, name: &str) -> Option<u64>
    ensures { MatchOption result ((n : ℕ) → HasNumber name.now (rows_of (found_of matches.now)) n → ⊥)
        (HasNumber name.now (rows_of (found_of matches.now))) }
{
    matches.get_one::<u64>(name)
}

/// Returns the first argument of this name, if there is one.
pub(crate) fn argument<'a>(matches: &ArgMatches<'a>, name: &str) -> Option<&'a str>
    ensures { option_map (λ w. w.now) result ≡ first_of name.now (rows_of (found_of matches.now)) }
{
    matches.get_str(name)
}

/// Returns whether a flag is set: `clap` gives it as an argument.
pub(crate) fn flag(matches: &ArgMatches<'_>, name: &str) -> bool
    ensures { result ≡ is_set name.now (rows_of (found_of matches.now)) }
{
    match argument(matches, name) {
        Some(text) => text == "true",
        None => false,
    }
}

/// Returns the form of what is written.
pub(crate) fn form_of(matches: &ArgMatches<'_>) -> Form
    ensures { result ≡ form_in (rows_of (found_of matches.now)) }
{
    if flag(matches, "csv") {
        Form::Csv
    } else {
        Form::Lines
    }
}

/// Returns the link of the four options, if they have one.
fn alone_of(matches: &ArgMatches<'_>) -> Option<Alone>
    ensures { MatchOption result ((link : Link) → HasLink (rows_of (found_of matches.now)) link → ⊥)
        (HasLink (rows_of (found_of matches.now))) }
{
    let id = number(matches, "id")?;
    let bag = number(matches, "bag")?;
    let jitter = number(matches, "jitter")?;
    let size = number(matches, "size")?;
    Alone::of_numbers(id, bag, jitter, size)
}

/// Returns the files of a run, if all are named. An empty argument names no folder.
fn paths_of<'a>(matches: &ArgMatches<'a>) -> Option<Paths<'a>>
    ensures { MatchOption result ((paths : Files) → HasPaths (rows_of (found_of matches.now)) paths → ⊥)
        (HasPaths (rows_of (found_of matches.now))) }
{
    let table = argument(matches, "TABLE")?;
    let input = argument(matches, "IN")?;
    let output = argument(matches, "OUT")?;
    if input.is_empty() || output.is_empty() {
        return None;
    }
    let unchecked = flag(matches, "unchecked");
    Some(Paths {
        table,
        input,
        output,
        unchecked,
    })
}

/// Returns the files of a run of which nothing is put, if all are named. An empty argument names no folder.
fn inputs_of<'a>(matches: &ArgMatches<'a>) -> Option<Inputs<'a>>
    ensures { MatchOption result ((inputs : Given) → HasInputs (rows_of (found_of matches.now)) inputs → ⊥)
        (HasInputs (rows_of (found_of matches.now))) }
{
    let table = argument(matches, "TABLE")?;
    let input = argument(matches, "IN")?;
    if input.is_empty() {
        return None;
    }
    let unchecked = flag(matches, "unchecked");
    Some(Inputs {
        table,
        input,
        unchecked,
    })
}

/// Returns what is asked of a run beside its files; none if the list of `--fail-on` is refused.
fn options_of(matches: &ArgMatches<'_>) -> Option<RunOptions>
    ensures { MatchOption result ((options : Options) → HasOptions (rows_of (found_of matches.now)) options → ⊥)
        (HasOptions (rows_of (found_of matches.now))) }
{
    let verdict = flag(matches, "verdict");
    let fail_on = match argument(matches, "fail-on") {
        Some(list) => FailOn::of_list(list)?,
        None => FailOn::default(),
    };
    let form = form_of(matches);
    Some(RunOptions {
        verdict,
        fail_on,
        form,
    })
}

/// Reads texts as the numbers of links, and returns none if one of them is no such number.
fn links_in(alloc: Global, texts: &[&str]) -> Result<Option<Vec<u16>>, AllocError>
    ensures { IfOk result (λ found. MatchOption found ((links : List ℕ) → AreLinks (map (λ t. t.now) texts.now) links → ⊥)
        (λ links. AreLinks (map (λ t. t.now) texts.now) links.items)) }
{
    let mut links = Vec::new(alloc);
    for text in texts {
        let Ok(link) = text.parse::<u16>() else {
            return Ok(None);
        };
        links.push(link)?;
    }
    Ok(Some(links))
}

/// Returns the links of a trace's options; none if one of them is no number of a link.
fn links_of(alloc: Global, matches: &ArgMatches<'_>) -> Result<Option<Vec<u16>>, AllocError>
    ensures { IfOk result (λ found. MatchOption found
        ((links : List ℕ) → AreLinks (unwrap_or (all_of (codes "link") (rows_of (found_of matches.now))) []) links → ⊥)
        (λ links. AreLinks (unwrap_or (all_of (codes "link") (rows_of (found_of matches.now))) []) links.items)) }
{
    match matches.get_strs("link") {
        Some(texts) => links_in(alloc, texts),
        None => Ok(Some(Vec::new(alloc))),
    }
}

/// Returns what is asked of a trace beside its files; none if one of its links is no number of a link.
fn trace_options_of(
    alloc: Global,
    matches: &ArgMatches<'_>,
) -> Result<Option<TraceOptions>, AllocError>
    ensures { IfOk result (λ found. MatchOption found ((options : Shown) → HasTraceOptions (rows_of (found_of matches.now)) options → ⊥)
        (HasTraceOptions (rows_of (found_of matches.now)))) }
{
    let Some(links) = links_of(alloc, matches)? else {
        return Ok(None);
    };
    let relative = flag(matches, "relative");
    Ok(Some(TraceOptions { links, relative }))
}

/// Returns what the subcommand `trace` asks for, if its arguments are accepted.
fn trace_asked<'a>(alloc: Global, inner: &ArgMatches<'a>) -> Result<Option<Request<'a>>, AllocError>
    ensures { IfOk result (λ found. MatchOption found ((request : Asked) → AsksFor (Some (codes "trace", rows_of (found_of inner.now))) request → ⊥)
        (AsksFor (Some (codes "trace", rows_of (found_of inner.now))))) }
{
    let Some(paths) = paths_of(inner) else {
        return Ok(None);
    };
    let Some(options) = trace_options_of(alloc, inner)? else {
        return Ok(None);
    };
    Ok(Some(Request::Trace(paths, options)))
}

/// Returns what a subcommand other than `alone`, `check`, `size` and `trace` asks for, if it is known and its arguments are accepted.
fn run_asked<'a>(name: &str, inner: &ArgMatches<'a>) -> Option<Request<'a>>
    requires alone { bytes_eq name.now (codes "alone") ≡ false }
    requires check { bytes_eq name.now (codes "check") ≡ false }
    requires size { bytes_eq name.now (codes "size") ≡ false }
    requires trace { bytes_eq name.now (codes "trace") ≡ false }
    ensures { MatchOption result ((request : Asked) → AsksFor (Some (name.now, rows_of (found_of inner.now))) request → ⊥)
        (AsksFor (Some (name.now, rows_of (found_of inner.now)))) }
{
    if name == "run" {
        let paths = paths_of(inner)?;
        let options = options_of(inner)?;
        Some(Request::Run(paths, options))
    } else if name == "measure" {
        let inputs = inputs_of(inner)?;
        let form = form_of(inner);
        Some(Request::Measure(inputs, form))
    } else if name == "survey" {
        let inputs = inputs_of(inner)?;
        let form = form_of(inner);
        Some(Request::Survey(inputs, form))
    } else if name == "explain" {
        let entry = entry_asked(inner)?;
        Some(Request::Explain(entry))
    } else if name == "compare" {
        let compare = compare_of(inner)?;
        let recordings = recordings_of(inner)?;
        let form = form_of(inner);
        Some(Request::Compare(compare, recordings, form))
    } else {
        None
    }
}

/// Returns what a subcommand other than `trace` asks for, if it is known and its arguments are accepted.
fn other_asked<'a>(name: &str, inner: &ArgMatches<'a>) -> Option<Request<'a>>
    requires { bytes_eq name.now (codes "trace") ≡ false }
    ensures { MatchOption result ((request : Asked) → AsksFor (Some (name.now, rows_of (found_of inner.now))) request → ⊥)
        (AsksFor (Some (name.now, rows_of (found_of inner.now)))) }
{
    if name == "alone" {
        let link = alone_of(inner)?;
        Some(Request::Alone(link))
    } else if name == "check" {
        let table = argument(inner, "TABLE")?;
        let form = form_of(inner);
        Some(Request::Check(table, form))
    } else if name == "size" {
        let table = argument(inner, "TABLE")?;
        let form = form_of(inner);
        Some(Request::Size(table, form))
    } else {
        run_asked(name, inner)
    }
}

/// Returns what the subcommand that was entered asks for, if there is one and its arguments are accepted.
fn asked<'a>(alloc: Global, matches: &ArgMatches<'a>) -> Result<Option<Request<'a>>, AllocError>
    ensures { IfOk result (λ found. MatchOption found ((request : Asked) → AsksFor (subcommand_rows_of matches.now) request → ⊥)
        (AsksFor (subcommand_rows_of matches.now))) }
{
    let Some((name, inner)) = matches.subcommand() else {
        return Ok(None);
    };
    if name == "trace" {
        trace_asked(alloc, inner)
    } else {
        Ok(other_asked(name, inner))
    }
}

/// Returns what an error of `clap` means.
fn refusal(alloc: Global, error: &Error) -> NoRequest
    ensures { Explains (kind_of error.now) result }
{
    match error.kind() {
        ErrorKind::DisplayHelp | ErrorKind::DisplayVersion => match error.to_string(alloc) {
            Ok(text) => NoRequest::Help(text),
            Err(_) => NoRequest::Memory,
        },
        ErrorKind::OutOfMemory => NoRequest::Memory,
        _ => NoRequest::Usage,
    }
}

/// Returns what `clap` finds in arguments by this command, or why they ask for no command.
fn matches_of<'a>(
    alloc: Global,
    command: Command<'a>,
    arguments: &'a [String],
) -> Result<ArgMatches<'a>, NoRequest>
    requires simple { is_simple (app_of command) ≡ true }
    requires free { is_simple_and_free (app_of command) ≡ true }
    ensures { MatchResult result
        (λ m. HasMatches (app_of command.entry) (map string_bytes arguments.entry.now) (subcommand_rows_of m))
        (λ n. HasNoMatches (fault_of (app_of command.entry) (map string_bytes arguments.entry.now)) n) }
{
    match command.try_get_matches_from(arguments) {
        Ok(matches) => Ok(matches),
        Err(error) => Err(refusal(alloc, &error)),
    }
}

/// Returns whether the first argument after the program's name is `network`.
fn is_network(arguments: &[String]) -> bool
    ensures { result ≡ is_network (map string_bytes arguments.now) }
{
    match arguments.get(1) {
        Some(argument) => argument.as_str() == "network",
        None => false,
    }
}

/// Returns what the arguments after `afdx` ask for, of which the first is `network`.
fn parse_network<'a>(alloc: Global, arguments: &'a [String]) -> Result<Request<'a>, NoRequest>
    requires { is_network (map string_bytes arguments.now) ≡ true }
    ensures { Reads (map string_bytes arguments.entry.now) result }
{
    let Ok(command) = network_program(alloc) else {
        return Err(NoRequest::Memory);
    };
    let matches = matches_of(alloc, command, &arguments[1..])?;
    match network_asked(&matches) {
        Some(request) => Ok(Request::Network(request)),
        None => Err(NoRequest::Usage),
    }
}

/// Returns what arguments that are of no network ask for.
fn parse_other<'a>(
    alloc: Global,
    version: &'a str,
    arguments: &'a [String],
) -> Result<Request<'a>, NoRequest>
    requires { is_network (map string_bytes arguments.now) ≡ false }
    ensures { Reads (map string_bytes arguments.entry.now) result }
{
    let Ok(command) = program(alloc, version) else {
        return Err(NoRequest::Memory);
    };
    let matches = matches_of(alloc, command, arguments)?;
    match asked(alloc, &matches) {
        Ok(Some(request)) => Ok(request),
        Ok(None) => Err(NoRequest::Usage),
        Err(_) => Err(NoRequest::Memory),
    }
}

/// Returns what the arguments ask for, of which the first is the program's name. `version` is what follows the name in the text of the
/// version.
///
/// # Errors
///
/// `Help` with its text if `clap` is asked for help or the version; `Memory` if memory ran out; `Usage` if `clap` refuses the arguments
/// for another cause, an option's number is out of its limits, IN, OUT or the folder of `--rows` is empty, the list of what a run is to
/// fail on has another word or one twice, a text of `--stamps`, `--offset` or `--ports` is refused, `--rest` and `--from` are both
/// there, or a code is none of MESSAGES.
///
/// O(arguments).
pub fn parse<'a>(
    alloc: Global,
    version: &'a str,
    arguments: &'a [String],
) -> Result<Request<'a>, NoRequest>
    ensures { Reads (map string_bytes arguments.entry.now) result }
{
    if is_network(arguments) {
        parse_network(alloc, arguments)
    } else {
        parse_other(alloc, version, arguments)
    }
}
