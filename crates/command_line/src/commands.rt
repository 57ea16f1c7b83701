//! The commands of the program, as the grammar has them, and their help.

ghost use Rattle.std.specs.Prelude.{◌≡◌, IfOk, IfErr, map};
ghost use Rattle.clap.specs.Words.{app_of, kind_of, new_app};
ghost use Rattle.command_line.specs.Commands.{alone, program_alone, rule_for, the_program};
ghost use Rattle.command_line.specs.Commands.{words_of};

use crate::arguments::Argument;
use crate::help;
use clap::error::ErrorKind;
use clap::{Command, Error};
use std::alloc::Global;

/// A command of the program.
#[derive(Clone, Copy)]
enum Subcommand {
    Compare,
    Differences,
    Directions,
    Report,
    Check,
    Means,
    Mark,
    Change,
    List,
    Words,
    Explain,
}

/// What the help of a command says.
#[derive(Clone, Copy)]
struct Texts {
    /// In the list of commands, and to `-h`.
    about: &'static str,

    /// To `--help`.
    long_about: &'static str,

    /// After all: its statuses and an example.
    after: &'static str,
}

impl Subcommand {
    /// The word that calls it.
    fn name(self) -> &'static str
        ensures { result.now ≡ (words_of self).name }
    {
        match self {
            Subcommand::Compare => "compare",
            Subcommand::Differences => "differences",
            Subcommand::Directions => "directions",
            Subcommand::Report => "report",
            Subcommand::Check => "check",
            Subcommand::Means => "means",
            Subcommand::Mark => "mark",
            Subcommand::Change => "change",
            Subcommand::List => "list",
            Subcommand::Words => "words",
            Subcommand::Explain => "explain",
        }
    }

    /// Its arguments and options, in the order in which they are read and help lists them.
    fn arguments(self) -> &'static [Argument]
        ensures { map rule_for result.now ≡ (words_of self).rules }
    {
        match self {
            Subcommand::Compare => &COMPARE,
            Subcommand::Differences => &DIFFERENCES,
            Subcommand::Directions => &DIRECTIONS,
            Subcommand::Report => &REPORT,
            Subcommand::Check => &CHECK,
            Subcommand::Means => &MEANS,
            Subcommand::Mark => &MARK,
            Subcommand::Change => &CHANGE,
            Subcommand::List => &LIST,
            Subcommand::Words => &WORDS,
            Subcommand::Explain => &EXPLAIN,
        }
    }

    /// What its help says.
    fn texts(self) -> Texts {
        match self {
            Subcommand::Compare => Texts {
                about: help::COMPARE_ABOUT,
                long_about: help::COMPARE_LONG_ABOUT,
                after: help::COMPARE_EXAMPLE,
            },
            Subcommand::Differences => Texts {
                about: "Prints by how much a table of directions differs, target by target",
                long_about: help::DIFFERENCES_LONG_ABOUT,
                after: help::DIFFERENCES_EXAMPLE,
            },
            Subcommand::Directions => Texts {
                about: "Prints the least-squares directions of a station as a table",
                long_about: help::DIRECTIONS_LONG_ABOUT,
                after: help::DIRECTIONS_EXAMPLE,
            },
            Subcommand::Report => Texts {
                about: "Prints the protocol of the sets of a station, with readings and residuals",
                long_about: help::REPORT_LONG_ABOUT,
                after: help::REPORT_EXAMPLE,
            },
            Subcommand::Check => Texts {
                about: "Checks a sheet against a field file",
                long_about: help::CHECK_LONG_ABOUT,
                after: help::CHECK_EXAMPLE,
            },
            Subcommand::Means => Texts {
                about: "Prints the adjusted sheet of a station whose sets are complete",
                long_about: help::MEANS_LONG_ABOUT,
                after: help::MEANS_EXAMPLE,
            },
            Subcommand::Mark => Texts {
                about: help::MARK_ABOUT,
                long_about: help::MARK_LONG_ABOUT,
                after: help::MARK_EXAMPLE,
            },
            Subcommand::Change => Texts {
                about: help::CHANGE_ABOUT,
                long_about: help::CHANGE_LONG_ABOUT,
                after: help::CHANGE_EXAMPLE,
            },
            Subcommand::List => Texts {
                about: "Lists the stations of a field file and their two-face directions",
                long_about: help::LIST_LONG_ABOUT,
                after: help::LIST_EXAMPLE,
            },
            Subcommand::Words => Texts {
                about: "Prints the words of a field file",
                long_about: help::WORDS_LONG_ABOUT,
                after: help::WORDS_EXAMPLE,
            },
            Subcommand::Explain => Texts {
                about: "Explains a fault that a refusal names",
                long_about: help::EXPLAIN_LONG_ABOUT,
                after: help::EXPLAIN_EXAMPLE,
            },
        }
    }
}

/// The commands, in the order in which help lists them.
const SUBCOMMANDS: [Subcommand; 11] = [
    Subcommand::Compare,
    Subcommand::Differences,
    Subcommand::Directions,
    Subcommand::Report,
    Subcommand::Check,
    Subcommand::Means,
    Subcommand::Mark,
    Subcommand::Change,
    Subcommand::List,
    Subcommand::Words,
    Subcommand::Explain,
];

/// The arguments and options of `compare`.
const COMPARE: [Argument; 12] = [
    Argument::FieldFile,
    Argument::StationOrTable,
    Argument::Table,
    Argument::All,
    Argument::Degrees,
    Argument::MinutesAfterPoint,
    Argument::Columns,
    Argument::TwoC,
    Argument::TwoI,
    Argument::Residual,
    Argument::Within,
    Argument::Digests,
];

/// The arguments and options of `differences`.
const DIFFERENCES: [Argument; 12] = [
    Argument::FieldFile,
    Argument::StationOrTable,
    Argument::Table,
    Argument::All,
    Argument::Degrees,
    Argument::MinutesAfterPoint,
    Argument::Columns,
    Argument::TwoC,
    Argument::TwoI,
    Argument::Residual,
    Argument::DecimalComma,
    Argument::Json,
];

/// The arguments and options of `directions`.
const DIRECTIONS: [Argument; 8] = [
    Argument::FieldFile,
    Argument::Station,
    Argument::All,
    Argument::TwoC,
    Argument::TwoI,
    Argument::Residual,
    Argument::Decimals,
    Argument::DecimalComma,
];

/// The arguments and options of `report`.
const REPORT: [Argument; 19] = [
    Argument::FieldFile,
    Argument::Station,
    Argument::All,
    Argument::TwoC,
    Argument::TwoI,
    Argument::Residual,
    Argument::StatedTable,
    Argument::Degrees,
    Argument::MinutesAfterPoint,
    Argument::Columns,
    Argument::Within,
    Argument::Language,
    Argument::Date,
    Argument::Note,
    Argument::Digests,
    Argument::Signature,
    Argument::Pages,
    Argument::Rows,
    Argument::DecimalComma,
];

/// The arguments and options of `check`.
const CHECK: [Argument; 6] = [
    Argument::FieldFile,
    Argument::Sheet,
    Argument::TwoC,
    Argument::TwoI,
    Argument::Residual,
    Argument::Digests,
];

/// The arguments and options of `means`.
const MEANS: [Argument; 4] = [
    Argument::FieldFile,
    Argument::Station,
    Argument::TwoC,
    Argument::TwoI,
];

/// The arguments and options of `mark`.
const MARK: [Argument; 9] = [
    Argument::FieldFile,
    Argument::Copy,
    Argument::StatedName,
    Argument::SameSetUp,
    Argument::Again,
    Argument::StationCode,
    Argument::StatedSets,
    Argument::StatedTargets,
    Argument::Others,
];

/// The arguments and options of `change`.
const CHANGE: [Argument; 4] = [
    Argument::FieldFile,
    Argument::Copy,
    Argument::LeaveOut,
    Argument::Rename,
];

/// The arguments and options of `list`.
const LIST: [Argument; 5] = [
    Argument::FieldFile,
    Argument::TwoC,
    Argument::TwoI,
    Argument::Rows,
    Argument::DecimalComma,
];

/// The arguments and options of `words`.
const WORDS: [Argument; 1] = [Argument::FieldFile];

/// The arguments and options of `explain`.
const EXPLAIN: [Argument; 1] = [Argument::Fault];

/// The program with all its commands, in this version.
pub(crate) fn program<'a>(alloc: Global, version: &'a str) -> Result<Command<'a>, Error>
    ensures commands { IfOk result (λ command. app_of command ≡ the_program) }
    ensures memory { IfErr result (λ error. kind_of error ≡ ErrorKind.OutOfMemory) }
{
    let mut program = bare_program(alloc, version);
    for subcommand in SUBCOMMANDS {
        program = program.subcommand(command_of(alloc, subcommand)?)?;
    }
    Ok(program)
}

/// The program before its commands are added.
fn bare_program<'a>(alloc: Global, version: &'a str) -> Command<'a>
    ensures { app_of result ≡ program_alone }
{
    Command::new(alloc, "station_check")
        .version(version)
        .propagate_version(true)
        .about(help::ABOUT)
        .long_about(help::LONG_ABOUT)
        .after_help(help::STATUSES)
}

/// The command of this name, alone.
pub(crate) fn command_named<'a>(alloc: Global, name: &'a str) -> Result<Command<'a>, Error>
    ensures name { IfOk result (λ command. (app_of command).top.name ≡ name.entry.now) }
    ensures memory { IfErr result (λ error. kind_of error ≡ ErrorKind.OutOfMemory) }
{
    for subcommand in SUBCOMMANDS {
        if subcommand.name() == name {
            return command_of(alloc, subcommand);
        }
    }
    Ok(Command::new(alloc, name))
}

/// A command, alone.
fn command_of<'a>(alloc: Global, subcommand: Subcommand) -> Result<Command<'a>, Error>
    ensures words { IfOk result (λ command. app_of command ≡ alone (words_of subcommand)) }
    ensures memory { IfErr result (λ error. kind_of error ≡ ErrorKind.OutOfMemory) }
{
    let arguments = subcommand.arguments();
    let mut command = bare_command(alloc, subcommand);
    for &argument in arguments {
        command = command.arg(argument.with_help(alloc))?;
    }
    Ok(command)
}

/// A command before it has arguments.
fn bare_command<'a>(alloc: Global, subcommand: Subcommand) -> Command<'a>
    ensures { app_of result ≡ new_app (words_of subcommand).name }
{
    let name: &'a str = subcommand.name();
    let texts = subcommand.texts();
    Command::new(alloc, name)
        .about(texts.about)
        .long_about(texts.long_about)
        .after_help(texts.after)
}
