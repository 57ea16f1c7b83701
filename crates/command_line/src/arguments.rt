//! The arguments and options of the commands, as the grammar has them, and their help.

ghost use Rattle.std.specs.Prelude.{◌≡◌};
ghost use Rattle.clap.specs.Words.{rule_of};
ghost use Rattle.command_line.specs.Commands.{decimals_rule, optional_path_rule, texts_rule};
ghost use Rattle.command_line.specs.Commands.{face_limit_rule, optional_rule};
ghost use Rattle.command_line.specs.Commands.{fault_rule};
ghost use Rattle.command_line.specs.Commands.{flag_rule, given_rule, path_rule, rule_for};
ghost use Rattle.command_line.specs.Commands.{stated_table_rule, text_rule};

use crate::help;
use clap::builder::ValueParser;
use clap::{Arg, ArgAction};
use direction_table::MOST_WRITTEN;
use std::alloc::Global;

/// The path of the field file.
pub(crate) const GSI: &str = "GSI";

/// The path of the copy of a field file.
pub(crate) const COPY: &str = "COPY";

/// The path of the sheet.
pub(crate) const SHEET: &str = "SHEET";

/// The path of the table of directions.
pub(crate) const TABLE: &str = "TABLE";

/// The name of the station.
pub(crate) const STATION: &str = "STATION";

/// The flag that asks for all stations.
pub(crate) const ALL: &str = "all";

/// The words of a fault.
pub(crate) const FAULT: &str = "FAULT";

/// The option of the limit of 2c.
pub(crate) const TWO_C: &str = "two-c";

/// The option of the limit of 2i.
pub(crate) const TWO_I: &str = "two-i";

/// The option of the limit of residuals.
pub(crate) const RESIDUAL: &str = "residual";

/// The option of how near a table must be.
pub(crate) const WITHIN: &str = "within";

/// The flag that says that a table states degrees.
pub(crate) const DEGREES: &str = "degrees";

/// The flag that says that it has minutes and seconds after the point.
pub(crate) const DMMSS: &str = "dmmss";

/// The option of the columns of a table.
pub(crate) const COLUMNS: &str = "columns";

/// The option of how many decimals a direction is written with.
pub(crate) const DECIMALS: &str = "decimals";

/// The flag that prints digests.
pub(crate) const SHA256: &str = "sha256";

/// The flag that prints rows.
pub(crate) const CSV: &str = "csv";

/// The flag that prints semicolons between cells and commas in numbers.
pub(crate) const DECIMAL_COMMA: &str = "decimal-comma";

/// The flag that prints JSON lines.
pub(crate) const JSON: &str = "json";

/// The option of the path of a table.
pub(crate) const STATED_TABLE: &str = "table";

/// The option of the name of the file's one station.
pub(crate) const STATED_NAME: &str = "station";

/// The flag that says that a set-up line of the station that is open begins nothing.
pub(crate) const SAME_SET_UP: &str = "same-set-up";

/// The flag that says that a name that comes again is another set-up.
pub(crate) const AGAIN: &str = "again";

/// The option of the code whose blocks begin a station.
pub(crate) const STATION_CODE: &str = "station-code";

/// The option of how many sets were read to the end.
pub(crate) const SETS: &str = "sets";

/// The option of how many targets they have.
pub(crate) const TARGETS: &str = "targets";

/// The flag that leaves stations with a fault outside.
pub(crate) const OTHERS: &str = "others";

/// The option of the lines that are left out.
pub(crate) const LEAVE_OUT: &str = "leave-out";

/// The option of the lines whose points have other names.
pub(crate) const RENAME: &str = "rename";

/// The option of the language of a report.
pub(crate) const LANGUAGE: &str = "language";

/// The option of the date of a report.
pub(crate) const DATE: &str = "date";

/// The option of the notes of a report.
pub(crate) const NOTE: &str = "note";

/// The flag that ends a report with lines for a signature.
pub(crate) const SIGNATURE: &str = "signature";

/// The flag that divides a report into pages.
pub(crate) const PAGES: &str = "pages";

/// The limit of a face difference that no option states.
const USUAL_LIMIT: &str = "20mgon";

/// How many decimals a direction is written with where no option states it.
const USUAL_DECIMALS: &str = "6";

/// An argument or an option of a command.
#[derive(Clone, Copy)]
pub(crate) enum Argument {
    /// The path of the field file.
    FieldFile,

    /// The path of the copy of a field file.
    Copy,

    /// The name of the station, which may be left out.
    Station,

    /// The name of the station; or the path of the table, where no word follows or all stations are
    /// asked for.
    StationOrTable,

    /// That all stations are asked for.
    All,

    /// The path of the sheet.
    Sheet,

    /// The path of the table of directions.
    Table,

    /// The words of a fault.
    Fault,

    /// The limit of 2c.
    TwoC,

    /// The limit of 2i.
    TwoI,

    /// The limit of residuals.
    Residual,

    /// How near a table must be.
    Within,

    /// That a table states degrees.
    Degrees,

    /// That its degrees have minutes and seconds after the point.
    MinutesAfterPoint,

    /// Which columns of a table are read.
    Columns,

    /// How many decimals a direction is written with.
    Decimals,

    /// That digests are printed.
    Digests,

    /// That rows are printed.
    Rows,

    /// That rows have semicolons between cells and commas in numbers.
    DecimalComma,

    /// That JSON lines are printed.
    Json,

    /// The path of a table, as an option.
    StatedTable,

    /// The name of the file's one station.
    StatedName,

    /// That a set-up line of the station that is open begins nothing.
    SameSetUp,

    /// That a name that comes again is another set-up.
    Again,

    /// The code whose blocks begin a station.
    StationCode,

    /// How many sets were read to the end.
    StatedSets,

    /// How many targets they have.
    StatedTargets,

    /// That stations with a fault stay outside.
    Others,

    /// The lines that are left out.
    LeaveOut,

    /// The lines whose points have other names.
    Rename,

    /// The language of a report.
    Language,

    /// The date of a report.
    Date,

    /// What the head of a report notes.
    Note,

    /// That a report ends with lines for a signature.
    Signature,

    /// That a report is divided into pages.
    Pages,
}

impl Argument {
    /// The argument, with its help.
    pub(crate) fn with_help<'a>(self, alloc: Global) -> Arg<'a>
        ensures { rule_of result ≡ rule_for self }
    {
        self.alone(alloc)
            .help(self.help())
            .long_help(self.long_help())
    }

    /// The argument before it has its help.
    fn alone<'a>(self, alloc: Global) -> Arg<'a>
        ensures { rule_of result ≡ rule_for self }
    {
        match self {
            Argument::FieldFile => path(alloc, GSI),
            Argument::Copy => optional_path(alloc, COPY),
            Argument::Station => optional(alloc, STATION),
            Argument::StationOrTable => given(alloc, STATION),
            Argument::All => flag(alloc, ALL),
            Argument::Sheet => path(alloc, SHEET),
            Argument::Table => optional_path(alloc, TABLE),
            Argument::Fault => words_of_fault(alloc),
            Argument::TwoC => face_limit(alloc, TWO_C),
            Argument::TwoI => face_limit(alloc, TWO_I),
            Argument::Residual => text_option(alloc, RESIDUAL, "LIMIT"),
            Argument::Within => text_option(alloc, WITHIN, "LIMIT"),
            Argument::Degrees => flag(alloc, DEGREES),
            Argument::MinutesAfterPoint => flag(alloc, DMMSS),
            Argument::Columns => text_option(alloc, COLUMNS, "TARGET,DIRECTION"),
            Argument::Decimals => decimals(alloc),
            Argument::Digests => flag(alloc, SHA256),
            Argument::Rows => flag(alloc, CSV),
            Argument::DecimalComma => flag(alloc, DECIMAL_COMMA),
            Argument::Json => flag(alloc, JSON),
            Argument::StatedTable => stated_table(alloc),
            Argument::StatedName => text_option(alloc, STATED_NAME, "NAME"),
            Argument::SameSetUp => flag(alloc, SAME_SET_UP),
            Argument::Again => flag(alloc, AGAIN),
            Argument::StationCode => text_option(alloc, STATION_CODE, "N"),
            Argument::StatedSets => many_texts(alloc, SETS, "N"),
            Argument::StatedTargets => many_texts(alloc, TARGETS, "N"),
            Argument::Others => flag(alloc, OTHERS),
            Argument::LeaveOut => many_texts(alloc, LEAVE_OUT, "N"),
            Argument::Rename => many_texts(alloc, RENAME, "N=NAME"),
            Argument::Language => text_option(alloc, LANGUAGE, "CODE"),
            Argument::Date => text_option(alloc, DATE, "TEXT"),
            Argument::Note => many_texts(alloc, NOTE, "KEY=TEXT"),
            Argument::Signature => flag(alloc, SIGNATURE),
            Argument::Pages => flag(alloc, PAGES),
        }
    }

    /// What `-h` says of it.
    fn help(self) -> &'static str {
        match self {
            Argument::FieldFile => "The field file, in GSI-8, GSI-16 or both",
            Argument::Copy => "The file that the copy goes to, where none is yet",
            Argument::Station => help::STATION_HELP,
            Argument::StationOrTable => help::STATION_OR_TABLE_HELP,
            Argument::All => "Answer all stations, in the order of the file, in the place of one",
            Argument::Sheet => "The sheet, comma-separated text",
            Argument::Table => help::TABLE_HELP,
            Argument::Fault => "The name of the fault, or the line of the refusal",
            Argument::TwoC => help::TWO_C_HELP,
            Argument::TwoI => help::TWO_I_HELP,
            Argument::Residual => help::RESIDUAL_HELP,
            Argument::Within => help::WITHIN_HELP,
            Argument::Degrees => "Read the directions of the table in degrees, and not in gon",
            Argument::MinutesAfterPoint => {
                "Read degrees with minutes and seconds after the point, as 59.040918"
            }
            Argument::Columns => "Read these columns, by number or title, as 2,6 or Target,Hz",
            Argument::Decimals => "How many decimals of a gon a direction is written with: 1 to 8",
            Argument::Digests => "Print the SHA-256 digests of what was read, after the answer",
            Argument::Rows => "Print rows for other programs, as CSV",
            Argument::DecimalComma => help::DECIMAL_COMMA_HELP,
            Argument::Json => "Print each target as a JSON object on a line of its own",
            Argument::StatedTable => {
                "A table of directions, which stands beside the adjusted ones"
            }
            Argument::StatedName => "The name of the station, of a file without set-up lines",
            Argument::SameSetUp => "Go on with a station at a set-up line that has its name again",
            Argument::Again => "Call the second station of a name NAME-2, the third NAME-3",
            Argument::StationCode =>
                "Begin a station at each code block N with a word 42, its name",
            Argument::StatedSets => help::SETS_HELP,
            Argument::StatedTargets => help::TARGETS_HELP,
            Argument::Others =>
                "Leave stations that are not recognized outside, and mark the others",
            Argument::LeaveOut => "Leave out line N: once for each line",
            Argument::Rename => "Give the point of line N this name: once for each line",
            Argument::Language => "Write the report in this language",
            Argument::Date => "Print this date in the head of the report",
            Argument::Note => "Print a line KEY with TEXT in the head of the report: once a line",
            Argument::Signature => "End the report with lines for a place, a date and a signature",
            Argument::Pages => "Divide the report into pages of 60 lines",
        }
    }

    /// What `--help` says of it.
    fn long_help(self) -> &'static str {
        match self {
            Argument::All => help::ALL_LONG_HELP,
            Argument::TwoC => help::TWO_C_LONG_HELP,
            Argument::TwoI => help::TWO_I_LONG_HELP,
            Argument::Residual => help::RESIDUAL_LONG_HELP,
            Argument::Within => help::WITHIN_LONG_HELP,
            Argument::Degrees => help::DEGREES_LONG_HELP,
            Argument::MinutesAfterPoint => help::DMMSS_LONG_HELP,
            Argument::Columns => help::COLUMNS_LONG_HELP,
            Argument::Decimals => help::DECIMALS_LONG_HELP,
            Argument::Digests => help::SHA256_LONG_HELP,
            Argument::Rows => help::CSV_LONG_HELP,
            Argument::DecimalComma => help::DECIMAL_COMMA_LONG_HELP,
            Argument::Json => help::JSON_LONG_HELP,
            Argument::StatedTable => help::STATED_TABLE_LONG_HELP,
            Argument::Copy => help::COPY_LONG_HELP,
            Argument::StatedName => help::STATED_NAME_LONG_HELP,
            Argument::SameSetUp => help::SAME_SET_UP_LONG_HELP,
            Argument::Again => help::AGAIN_LONG_HELP,
            Argument::StationCode => help::STATION_CODE_LONG_HELP,
            Argument::StatedSets => help::SETS_LONG_HELP,
            Argument::StatedTargets => help::TARGETS_LONG_HELP,
            Argument::Others => help::OTHERS_LONG_HELP,
            Argument::LeaveOut => help::LEAVE_OUT_LONG_HELP,
            Argument::Rename => help::RENAME_LONG_HELP,
            Argument::Language => help::LANGUAGE_LONG_HELP,
            Argument::Date => help::DATE_LONG_HELP,
            Argument::Note => help::NOTE_LONG_HELP,
            Argument::Pages => help::PAGES_LONG_HELP,
            Argument::StationOrTable => help::STATION_OR_TABLE_LONG_HELP,
            Argument::FieldFile
            | Argument::Station
            | Argument::Sheet
            | Argument::Table
            | Argument::Fault
            | Argument::Signature => self.help(),
        }
    }
}

/// The argument of the words of a fault.
fn words_of_fault<'a>(alloc: Global) -> Arg<'a>
    ensures { rule_of result ≡ fault_rule }
{
    Arg::new(alloc, FAULT)
        .num_args(0..)
        .action(ArgAction::Append)
}

/// A path that may be left out, and is not empty.
fn optional_path<'a>(alloc: Global, name: &'a str) -> Arg<'a>
    ensures { rule_of result ≡ optional_path_rule name.entry.now }
{
    optional(alloc, name).value_parser(ValueParser::NonEmptyString)
}

/// An argument that may be left out.
fn optional<'a>(alloc: Global, name: &'a str) -> Arg<'a>
    ensures { rule_of result ≡ optional_rule name.entry.now }
{
    Arg::new(alloc, name).action(ArgAction::Set)
}

/// A path that must be given, and is not empty.
fn path<'a>(alloc: Global, name: &'a str) -> Arg<'a>
    ensures { rule_of result ≡ path_rule name.entry.now }
{
    given(alloc, name).value_parser(ValueParser::NonEmptyString)
}

/// An argument that must be given.
fn given<'a>(alloc: Global, name: &'a str) -> Arg<'a>
    ensures { rule_of result ≡ given_rule name.entry.now }
{
    Arg::new(alloc, name).required(true).action(ArgAction::Set)
}

/// The option of the path of a table.
fn stated_table<'a>(alloc: Global) -> Arg<'a>
    ensures { rule_of result ≡ stated_table_rule }
{
    text_option(alloc, STATED_TABLE, "TABLE").value_parser(ValueParser::NonEmptyString)
}

/// The option of a limit of face differences.
fn face_limit<'a>(alloc: Global, name: &'a str) -> Arg<'a>
    ensures { rule_of result ≡ face_limit_rule name.entry.now }
{
    text_option(alloc, name, "LIMIT").default_value(USUAL_LIMIT)
}

/// The option of how many decimals a direction is written with.
fn decimals<'a>(alloc: Global) -> Arg<'a>
    ensures { rule_of result ≡ decimals_rule }
{
    text_option(alloc, DECIMALS, "K")
        .value_parser(ValueParser::Signed(1, i64::from(MOST_WRITTEN)))
        .default_value(USUAL_DECIMALS)
}

/// An option with any number of texts, each with its own `--name`.
fn many_texts<'a>(alloc: Global, name: &'a str, value_name: &'a str) -> Arg<'a>
    ensures { rule_of result ≡ texts_rule name.entry.now }
{
    text_option(alloc, name, value_name).action(ArgAction::Append)
}

/// An option without a value.
fn flag<'a>(alloc: Global, name: &'a str) -> Arg<'a>
    ensures { rule_of result ≡ flag_rule name.entry.now }
{
    Arg::new(alloc, name).long(name).action(ArgAction::SetTrue)
}

/// An option with a text, which help calls by this name.
fn text_option<'a>(alloc: Global, name: &'a str, value_name: &'a str) -> Arg<'a>
    ensures { rule_of result ≡ text_rule name.entry.now }
{
    Arg::new(alloc, name)
        .long(name)
        .value_name(value_name)
        .action(ArgAction::Set)
}
