//! The run that the words of the command line ask for, over any host and any two sinks.

ghost use Rattle.std.specs.Prelude.{◌≡◌, ◌≤◌, IfOk, IfErr, OnErr, map, string_bytes};
ghost use Rattle.byte_ends.specs.Writers.{writer_change};
ghost use Rattle.command_line.specs.CommandLine.{IsMistakeIn};
ghost use Rattle.station_check.specs.RunEndings.{WritesOrFails};
ghost use Rattle.command_run.specs.Answering.{IsStatusOfWords, IsStatusOfRun, IsMistakenRun};
ghost use Rattle.command_run.specs.Answering.{LacksWords, NamesThere, NamesUnopened};
ghost use Rattle.command_run.specs.Answering.{TellsHindrance};
ghost use Rattle.command_run.specs.Hosts.{known_of};

use crate::answering::answer;
use crate::hindrance::Hindrance;
use crate::host::{Host, NoWords};
use crate::new_file::NewFile;
use crate::unopened::{Unopened, there_line, unopened_line};
use byte_ends::Sink;
use clap::Error;
use command_line::asked_for;
use station_check::{Fault, VERSION, refuse, refuse_by};
use station_explain::Explanation;
use std::alloc::Global;
use table_titles::titles_line;

/// The exit status of a mistake on the command line, or of a file that can't be opened.
pub const USAGE: u8 = 2;

/// What is printed where an argument is no text.
pub(crate) const NOT_TEXT: &str = "\
error: an argument is not UTF-8 text

A file of such a name can be passed as standard input: station_check list /dev/stdin < FILE

For more information, try '--help'.
";

/// Makes the run that the words of a host ask for, and answers its exit status. `faults` are the
/// explanations of all faults.
///
/// # Errors
///
/// What the parse of the words answers in the place of a run: help, the version, or a mistake. Then
/// nothing was asked of the two sinks.
pub fn run<'a, H: Host, W: Sink, E: Sink>(
    alloc: Global,
    host: &'a H,
    input: H::Input,
    faults: &[&'static [Explanation]],
    out: &mut W,
    err: &mut E,
) -> Result<u8, Error>
    ensures bound { IfOk result (λ status. status ≤ 2) }
    ensures status { IfOk result (IsStatusOfRun (known_of H.File.Source
        ⟦<NewFile<'a, H, H::New> as Sink>⟧ H.Input.Source H.Host host.now input) faults.now
        (writer_change W.Sink out.old out.new) (writer_change E.Sink err.old err.new)) }
    ensures mistake { IfErr result (IsMistakenRun (known_of H.File.Source
        ⟦<NewFile<'a, H, H::New> as Sink>⟧ H.Input.Source H.Host host.now input) faults.now) }
    ensures unchanged { OnErr result ((out.new ≡ out.old) × (err.new ≡ err.old)) }
{
    match host.words() {
        Ok(words) => status_of_words(alloc, host, input, faults, words.as_slice(), out, err),
        Err(reason) => Ok(report_lack(reason, err)),
    }
}

/// The exit status of the run that these words ask for.
fn status_of_words<'a, H: Host, W: Sink, E: Sink>(
    alloc: Global,
    host: &'a H,
    input: H::Input,
    faults: &[&'static [Explanation]],
    words: &[String],
    out: &mut W,
    err: &mut E,
) -> Result<u8, Error>
    ensures bound { IfOk result (λ status. status ≤ 2) }
    ensures status { IfOk result (IsStatusOfWords (known_of H.File.Source
        ⟦<NewFile<'a, H, H::New> as Sink>⟧ H.Input.Source H.Host host.now input) faults.now
        (writer_change W.Sink out.old out.new) (writer_change E.Sink err.old err.new) (map
        string_bytes words.now)) }
    ensures mistake { IfErr result (IsMistakeIn (map string_bytes words.now) faults.now) }
    ensures unchanged { OnErr result ((out.new ≡ out.old) × (err.new ≡ err.old)) }
{
    let request = asked_for(alloc, VERSION, faults, words)?;
    match answer(alloc, host, input, faults, request, out, err) {
        Ok(status) => Ok(status),
        Err(hindrance) => Ok(report_hindrance(alloc, &hindrance, err)),
    }
}

/// Tells what hinders a run on `err`, and answers the exit status.
fn report_hindrance<E: Sink>(alloc: Global, hindrance: &Hindrance<'_>, err: &mut E) -> u8
    ensures bound { result ≤ 2 }
    ensures told { TellsHindrance hindrance.now result (writer_change E.Sink err.old err.new) }
{
    match hindrance {
        Hindrance::Unopened(unopened) => report_unopened(alloc, unopened, err),
        Hindrance::IsThere(path) => report_there(alloc, *path, err),
        Hindrance::Station(refusal) => station_compare::refuse(refusal, err),
        Hindrance::Columns(fault) => refuse_by(titles_line(*fault).as_bytes(), err),
    }
}

/// Names a file that can't be opened on `err`, and answers the exit status.
fn report_unopened<E: Sink>(alloc: Global, unopened: &Unopened<'_>, err: &mut E) -> u8
    ensures bound { result ≤ 2 }
    ensures named { NamesUnopened unopened.now.path.now result
        (writer_change E.Sink err.old err.new) }
{
    match unopened_line(alloc, unopened.path) {
        Ok(line) => report(line.as_str(), err),
        Err(_) => refuse(Fault::Memory, err),
    }
}

/// Names a file that is there already on `err`, and answers the exit status.
fn report_there<E: Sink>(alloc: Global, path: &str, err: &mut E) -> u8
    ensures bound { result ≤ 2 }
    ensures named { NamesThere path.now result (writer_change E.Sink err.old err.new) }
{
    match there_line(alloc, path) {
        Ok(there) => report(there.as_str(), err),
        Err(_) => refuse(Fault::Memory, err),
    }
}

/// Says on `err` why there are no words, and answers the exit status.
fn report_lack<E: Sink>(reason: NoWords, err: &mut E) -> u8
    ensures bound { result ≤ 2 }
    ensures lacking { LacksWords reason result
        (writer_change E.Sink err.old err.new) }
{
    match reason {
        NoWords::OutOfMemory => refuse(Fault::Memory, err),
        NoWords::NotText => report(NOT_TEXT, err),
    }
}

/// Writes the text of a mistake to `err`, and answers the exit status.
fn report<E: Sink>(text: &str, err: &mut E) -> u8
    ensures status { result ≡ 2 }
    ensures line { WritesOrFails text.now
        (writer_change E.Sink err.old err.new) }
{
    // Where `err` fails, the text is lost.
    let _ = err.write_all(text.as_bytes());
    USAGE
}
