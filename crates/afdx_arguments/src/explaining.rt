//! The command `explain`, and what stands before a command whose refusal is to be explained.

ghost use Rattle.std.specs.Prelude.{◌≡◌, ℕ, List, false, map, string_bytes, IfOk, MatchOption};
ghost use Rattle.clap.specs.Words.{app_of, found_of, rows_of};
ghost use Rattle.clap.specs.declared.builder.command.Command.TheViews.{out-Command};
ghost use Rattle.afdx_arguments.specs.Commands.{explain_app};
ghost use Rattle.afdx_arguments.specs.Explaining.{HasEntry, is_flag_at, is_explained, plain_of};

use crate::arguments::argument;
use crate::command::{path, with_no_arguments};
use afdx_remedies::entry_of;
use clap::{ArgMatches, Command};
use std::alloc::{AllocError, Global};

/// What the help of `explain` says at its end.
const EXPLAIN: &str =
    "CODE is the word by which a line of a failure names its cause: C6 in \"afdx: table
C6 Range, link 1, bag_ms\", likewise P3, L2, G4 or J1; or usage, get, put, read,
write or memory. Prints what is wrong then, and what to do.

Status: 0 done, 2 arguments or no such code, 5 a stream or memory fails.

Example: afdx explain C6";

/// Makes the command `explain`.
#[tactic(auto, unfolding(crate::specs::Commands::explain_app))]
pub(crate) fn explain<'a>(alloc: Global) -> Result<Command<'a>, AllocError>
    ensures app { IfOk result (λ c. app_of c ≡ explain_app) }
    ensures local { IfOk result (λ c. (out-Command c).has_globals ≡ false) }
{
    let about = "Prints what is wrong and what to do, by the code of a line";
    with_no_arguments(alloc, "explain", about, EXPLAIN).arg(path(alloc, "CODE", "The code"))
}

/// Returns the entry of the code, if there is one.
pub(crate) fn entry_asked(matches: &ArgMatches<'_>) -> Option<&'static str>
    ensures { MatchOption result ((entry : List ℕ) → HasEntry (rows_of (found_of matches.now)) entry → ⊥)
        (λ entry. HasEntry (rows_of (found_of matches.now)) entry.now) }
{
    let code = argument(matches, "CODE")?;
    entry_of(code)
}

/// Returns whether the argument at a place is `--explain`.
fn is_flag_at(arguments: &[String], place: usize) -> bool
    ensures { result ≡ is_flag_at place (map string_bytes arguments.now) }
{
    match arguments.get(place) {
        Some(argument) => argument.as_str() == "--explain",
        None => false,
    }
}

/// Returns whether the first argument after the program's name is `--explain`: after the line of a failure its entry is wanted too. O(1).
pub fn is_explained(arguments: &[String]) -> bool
    ensures { result ≡ is_explained (map string_bytes arguments.now) }
{
    is_flag_at(arguments, 1)
}

/// Returns the arguments that ask for a command: those from `--explain` on, if it is the first after the program's name. It stands
/// then in the place of that name, which nothing reads. If it is there twice, all are returned, which `clap` refuses. O(1).
pub fn plain_of(arguments: &[String]) -> &[String]
    ensures { map string_bytes result.now ≡ plain_of (map string_bytes arguments.now) }
{
    if !is_explained(arguments) {
        return arguments;
    }
    if is_flag_at(arguments, 2) {
        return arguments;
    }
    &arguments[1..]
}
