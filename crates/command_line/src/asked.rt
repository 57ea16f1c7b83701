//! What the words of a command line ask for.

ghost use Rattle.std.specs.Prelude.{◌≡◌, ◌⊎◌, IfOk, IfErr, map, string_bytes};
ghost use Rattle.clap.specs.Words.{FailsBy, fault_of, found_of, kind_of, subcommand_rows_of};
ghost use Rattle.command_line.specs.CommandLine.{AsksToExplain, IsAskedFor, IsAskedForBy};
ghost use Rattle.command_line.specs.CommandLine.{IsMistakeIn, IsMistakenName, NamesMistake};
ghost use Rattle.command_line.specs.CommandLine.{named_by};
ghost use Rattle.command_line.specs.Commands.{the_program};

use crate::arguments::FAULT;
use crate::commands::program;
use crate::mistakes::{mistake_in, no_such_fault};
use crate::request::{Asked, Request};
use crate::subcommands::request_after;
use clap::error::ErrorKind;
use clap::{ArgMatches, Error};
use station_explain::{Explanation, explanation_meant, fault_named_in};
use std::alloc::Global;

/// What the program is called where its words don't have its name.
const USUAL_NAME: &str = "station_check";

/// What the words of a command line, of which the first is the program's name, ask for. Where they
/// ask for the version, it is this one; a fault is looked for in the table of explanations.
///
/// # Errors
///
/// What `clap` says of a mistake; help or the version that was asked for; that memory ran out.
pub fn asked_for<'a>(
    alloc: Global,
    version: &'a str,
    table: &[&'static [Explanation]],
    words: &'a [String],
) -> Result<Asked<'a>, Error>
    ensures asked { IfOk result (IsAskedForBy (map string_bytes words.now) table.now) }
    ensures mistake { IfErr result (IsMistakeIn (map string_bytes words.now) table.now) }
{
    let matches = matches_of(alloc, version, words)?;
    request_named(alloc, table, name_called(words), &matches)
}

/// What `clap` finds in the words of a command line by the grammar of the program.
fn matches_of<'a>(
    alloc: Global,
    version: &'a str,
    words: &'a [String],
) -> Result<ArgMatches<'a>, Error>
    ensures met { IfOk result (λ matches.
        subcommand_rows_of matches ≡ named_by (map string_bytes words.now)) }
    ensures kinds { FailsBy (fault_of the_program (map string_bytes words.now)) result }
{
    program(alloc, version)?.try_get_matches_from(words)
}

/// The name by which the program was called, where the words have it: what follows the last slash
/// of the first.
fn name_called(words: &[String]) -> &str {
    let Some(word) = words.first() else {
        return USUAL_NAME;
    };
    match word.as_str().rsplit_once('/') {
        Some((_, name)) => name,
        None => word.as_str(),
    }
}

/// The request of the subcommand that a parse met, or of none. The usage of a mistake calls the
/// program by this name.
fn request_named<'a>(
    alloc: Global,
    table: &[&'static [Explanation]],
    called: &str,
    matches: &ArgMatches<'a>,
) -> Result<Asked<'a>, Error>
    ensures asked { IfOk result (IsAskedFor (subcommand_rows_of matches.now) table.now) }
    ensures mistake { IfErr result (λ error. (kind_of error ≡ ErrorKind.OutOfMemory)
        ⊎ NamesMistake (subcommand_rows_of matches.now) table.now error) }
{
    match matches.subcommand() {
        None => Ok(Request::WordsOfInput),
        Some(("explain", found)) => explanation_asked_for(alloc, table, called, found),
        Some((name, found)) => match request_after(alloc, name, found) {
            Ok(Some(request)) => Ok(request),
            Ok(None) => Err(mistake_in(alloc, called, name, found)?),
            Err(refused) => Err(Error::from(refused)),
        },
    }
}

/// The explanation that is asked for; a mistake where no fault of the table has the name.
fn explanation_asked_for<'a>(
    alloc: Global,
    table: &[&'static [Explanation]],
    called: &str,
    found: &ArgMatches<'a>,
) -> Result<Asked<'a>, Error>
    ensures asked { IfOk result (AsksToExplain (found_of found.now) table.now) }
    ensures mistake { IfErr result (IsMistakenName (found_of found.now) table.now) }
{
    let Some(words) = found.get_strs(FAULT) else {
        return Ok(Request::Explain { fault: None });
    };
    let line = words.join(alloc, " ")?;
    let name = fault_named_in(line.as_str());
    match explanation_meant(table, name) {
        Some(fault) => Ok(Request::Explain { fault: Some(fault) }),
        None => Err(no_such_fault(alloc, table, called, line.as_str(), name)?),
    }
}
