//! The program `station_check`: checks directions and sheets against the field file, and prints the
//! adjustment.
//!
//! The words of the command line say what is asked; each answer is a call of a library over sources
//! and sinks, whose contract says what it read and wrote.
//!
//! What is asked of the runtime stands here, in `main`, `print` and `refused`, and in `host.rt` of
//! `command_run`. All between is generic.
#![tactic(auto)]

ghost use Rattle.std.specs.Prelude.{◌≡◌, OnOk, OnErr};
ghost use Rattle.clap.specs.Words.{kind_of};
ghost use Rattle.station_program.specs.Statuses.{IsStatusOfKind};

use byte_ends::{OfRead, OfWrite};
use clap::Error;
use clap::error::ErrorKind;
use command_run::{USAGE, run};
use station_check::{ACCEPTED, Fault, refuse};
use station_explain::all_explanations;
use std::io;
use std::process::ExitCode;

fn main(rt: HostRuntime) -> ExitCode {
    let faults = all_explanations();
    let input = OfRead::new(rt.stdin());
    let mut out = OfWrite::new(rt.stdout());
    let mut err = OfWrite::new(rt.stderr());
    match run(rt.alloc(), &rt, input, &faults, &mut out, &mut err) {
        Ok(status) => ExitCode::from(status),
        Err(error) => {
            let printed = print(&rt, &error);
            ExitCode::from(status_in_place(&rt, &error, printed))
        }
    }
}

/// Prints what the parse of the command line answered in place of a request: help, the version, or
/// a mistake; nothing where memory was refused.
fn print(rt: &HostRuntime, error: &Error) -> io::Result<()> {
    match error.kind() {
        ErrorKind::OutOfMemory => Ok(()),
        _ => error.print(rt),
    }
}

/// The exit status of what is printed in place of a run, by its kind, and by whether it was printed.
fn status_in_place(rt: &HostRuntime, error: &Error, printed: io::Result<()>) -> u8
    ensures { IsStatusOfKind (kind_of error.now) printed result }
{
    match error.kind() {
        ErrorKind::OutOfMemory => refused(rt, Fault::Memory),
        ErrorKind::DisplayHelp | ErrorKind::DisplayVersion => status_of_print(rt, printed),
        _ => USAGE,
    }
}

/// The exit status of help or the version, by whether it was printed.
fn status_of_print(rt: &HostRuntime, printed: io::Result<()>) -> u8
    ensures printed { OnOk printed (result ≡ 0) }
    ensures failed { OnErr printed (result ≡ 1) }
{
    match printed {
        Ok(()) => ACCEPTED,
        Err(_) => refused(rt, Fault::Write),
    }
}

/// Prints the line of a refusal on standard error, and answers its exit status.
fn refused(rt: &HostRuntime, fault: Fault) -> u8
    ensures { result ≡ 1 }
{
    refuse(fault, &mut OfWrite::new(rt.stderr()))
}
